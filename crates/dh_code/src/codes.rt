//! Flat code: operations on numbered values, and commands that lead to one another by their
//! numbers.

ghost use Rattle.std.specs.Prelude.{◌≡◌};
ghost use Rattle.dh_code.specs.Operated.{kind_of_operand};

use crate::keeping::Apart;
use dh_base::{Items, Place};
use dh_tree::ViewMap;
use dh_value::{Kind, Op, Word};

/// A value that an operation takes.
#[derive(Clone, Copy)]
pub enum Operand {
    /// One that never changes.
    Constant {
        /// The value.
        word: Word,
    },
    /// What a variable holds, as a value of a kind.
    Variable {
        /// The slot of its first copy.
        first: u32,
        /// Of how many loops round it each copy has a slot.
        depth: u32,
        /// The kind.
        kind: Kind,
        /// The bits that a value of the kind can have.
        mask: u64,
    },
    /// What an operation gave.
    Given {
        /// The kind of its value.
        kind: Kind,
        /// The number of the operation.
        at: usize,
        /// The bits that a value of the kind can have.
        mask: u64,
    },
}

/// Which element of a memory. (Most are named by indices of the memory: what the others take stands
/// apart, so that operations and commands stay small.)
#[derive(Drop)]
pub enum Target {
    /// That of indices.
    Indices {
        /// The indices, in order.
        operands: Items<Operand>,
    },
    /// That in a row of a bank.
    Row {
        /// The number of the bank.
        bank: u64,
        /// The row.
        row: Apart<Operand>,
    },
    /// That of indices of a view, through the views on the way to the memory.
    Through {
        /// The views, the named one first.
        views: Apart<Items<ViewMap>>,
        /// How many of the operands are indices, in order.
        count: usize,
        /// The indices, and behind them the offsets of the views in the same order.
        operands: Apart<Items<Operand>>,
    },
}

/// An access.
#[derive(Drop)]
pub struct Access {
    /// Where it stands.
    pub place: Place,
    /// The number of the memory.
    pub memory: usize,
    /// Which of its elements.
    pub target: Target,
}

/// An operation, which gives one value.
#[derive(Drop)]
pub enum CodeOperation {
    /// An operator on two values of the kinds that suit it.
    Binary {
        /// The operator.
        op: Op,
        /// The left operand.
        left: Operand,
        /// The right operand.
        right: Operand,
    },
    /// A value in an integer kind, modulo 2^width.
    Convert {
        /// The value.
        from: Operand,
        /// The kind.
        to: Kind,
    },
    /// An element that is read.
    Read {
        /// The access.
        access: Access,
    },
}

/// An expression: operations that stand one after the other, and its value behind them.
#[derive(Clone, Copy)]
pub struct FlatExpression {
    /// The number of the first operation.
    pub from: usize,
    /// The number behind that of the last one.
    pub to: usize,
    /// The value.
    pub value: Operand,
}

/// A value that is kept in a variable.
#[derive(Clone, Copy)]
pub struct Kept {
    /// The value.
    pub value: Operand,
    /// The slot of the variable's first copy.
    pub first: u32,
}

/// What a command does.
#[derive(Drop)]
pub enum Action {
    /// Writes a value to an element; the operations are those of the value and then of the indices.
    Store {
        /// The value.
        value: FlatExpression,
        /// The element.
        access: Access,
    },
    /// Sets a variable.
    Assign {
        /// The value.
        value: FlatExpression,
        /// The slot of the variable's first copy.
        first: u32,
        /// Of how many loops round it each copy has a slot.
        depth: u32,
    },
    /// Sets variables, once all values are found.
    Keep {
        /// The number of the first operation of the values.
        from: usize,
        /// The number behind that of the last one.
        to: usize,
        /// The values, and where they are kept.
        values: Items<Kept>,
        /// Of how many loops round it each copy of the variables has a slot.
        depth: u32,
    },
    /// Does commands by a test.
    Choose {
        /// The test.
        test: FlatExpression,
        /// Those that are done where it holds, from the first one on.
        chosen: Option<usize>,
        /// Those that are done where it does not.
        other: Option<usize>,
    },
}

/// A command, and the one behind it. Every list of commands begins at an earlier number than those
/// that lead to it.
#[derive(Drop)]
pub struct ListedCommand {
    /// What it does.
    pub action: Action,
    /// The number of the command behind it, if there is one.
    pub next: Option<usize>,
}

/// The code of a program.
#[derive(Drop)]
pub struct Code {
    /// The operations of all expressions.
    pub operations: Items<CodeOperation>,
    /// The commands.
    pub steps: Items<ListedCommand>,
}

/// The kind of a value.
pub fn operand_kind(operand: &Operand) -> Kind
    ensures { result ≡ kind_of_operand operand.now }
{
    match operand {
        Operand::Constant { word } => word.kind,
        Operand::Variable { kind, .. } => *kind,
        Operand::Given { kind, .. } => *kind,
    }
}
