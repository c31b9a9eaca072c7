//! Commands.

use crate::tables::Shape;
use crate::trees::{Expr, Ref, ShapePlaces};
use dh_base::Place;
use dh_value::{Kind, Op};

/// A command.
#[cycle(commands)]
#[derive(Drop)]
pub struct Command {
    /// Its number in the tree, from 0 in text order, a command before those inside it.
    pub id: u32,
    /// The place of its first token.
    pub place: Place,
    /// What it is.
    pub form: CommandForm,
}

/// Both sides of a store.
#[derive(Drop)]
pub struct Sides {
    /// An access.
    pub target: Expr,
    /// The value.
    pub value: Expr,
}

/// What stands before the body of a loop: its iterator and its numbers, and where these and its words
/// stand.
#[derive(Drop)]
pub struct LoopHeader {
    /// The iterator.
    pub iterator: Ref,
    /// Its kind, where it is written.
    pub declared: Option<Kind>,
    /// Its first value.
    pub low: u64,
    /// Where that number stands.
    pub low_place: Place,
    /// The number after its last value.
    pub high: u64,
    /// Where that number stands.
    pub high_place: Place,
    /// The copies of the body; 1 where none are written.
    pub factor: u64,
    /// Where that number stands; the place of the command where it is not written.
    pub factor_place: Place,
    /// Where the word `unroll` stands; the place of the command where it does not.
    pub unroll_place: Place,
    /// Where the word `combine` stands; the place of the command where it does not.
    pub combine_place: Place,
}

/// What a command is. Blocks hold their commands side by side, so that each takes the room of the
/// largest form: what is larger than a list is in a box. Small fields stand first, beside the tag.
#[cycle(commands)]
#[derive(Drop)]
pub enum CommandForm {
    /// `let name: declared = value`, of which one may lack.
    Let {
        /// Its kind, where it is written.
        declared: Option<Kind>,
        /// The variable.
        name: Ref,
        /// Its first value, where it is written.
        value: Box<Option<Expr>>,
    },
    /// `let name: shape`, of a type with ports or dimensions.
    LetMemory {
        /// The memory.
        name: Box<Ref>,
        /// Its shape.
        shape: Box<Shape>,
        /// The places of the shape's numbers.
        shape_places: Box<ShapePlaces>,
        /// A right side, where one is written. No rule allows one.
        value: Box<Option<Expr>>,
    },
    /// `view name = form`, with the parent's name within the form.
    View {
        /// The view.
        name: Box<Ref>,
        /// The memory or view that it shows.
        parent: Box<Ref>,
        /// How it shows that.
        form: Box<ViewForm>,
    },
    /// `target := value`, to a variable.
    Assign {
        /// The variable.
        target: Ref,
        /// The value.
        value: Box<Expr>,
    },
    /// `target := value`, to an element.
    Store {
        /// The access and the value.
        sides: Box<Sides>,
    },
    /// `target op= value`
    Reduce {
        /// One of `Add`, `Sub` and `Mul`.
        op: Op,
        /// The variable.
        target: Ref,
        /// The right side.
        value: Box<Expr>,
    },
    /// `function(arguments)`
    Call {
        /// The function.
        function: Box<Ref>,
        /// The arguments, in order.
        arguments: Vec<Expr>,
    },
    /// `{ body }`, or the body of the program, or an `if` that stands for a block after `else`.
    Block {
        /// The parts between `---`, at least one, each the commands between `;`.
        body: Vec<Vec<Command>>,
    },
    /// `if (test) then else other`
    If {
        /// The condition.
        test: Box<Expr>,
        /// The block that runs where it holds.
        then: Box<Command>,
        /// The block that runs where it does not; that of a further `if` after `else`.
        other: Option<Box<Command>>,
    },
    /// `while (test) body`
    While {
        /// The condition.
        test: Box<Expr>,
        /// The block that runs while it holds.
        body: Box<Command>,
    },
    /// `for (let iterator: declared = low..high) unroll factor body combine combine`
    For {
        /// What stands before the body.
        header: Box<LoopHeader>,
        /// The block of each turn.
        body: Box<Command>,
        /// The block that joins the copies, where it is written.
        combine: Option<Box<Command>>,
    },
}

impl CommandForm {
    /// Drops the form. What a drop of a form does is long, and stands in the proof of each function that
    /// drops one by itself; a call of this one stands there in its place.
    pub fn let_go(self) {}
}

/// How a view shows its parent: a bracket for each dimension.
#[derive(Drop)]
pub enum ViewForm {
    /// `shrink parent[by number]..`
    Shrink {
        /// The factors, at least one.
        by: Vec<u64>,
        /// Where each stands.
        by_place: Vec<Place>,
    },
    /// `split parent[by number]..`
    Split {
        /// The factors, at least one.
        by: Vec<u64>,
        /// Where each stands.
        by_place: Vec<Place>,
    },
    /// `suffix parent[by number * offset]..`
    Suffix {
        /// The factors and offsets, at least one pair.
        by: Vec<(u64, Expr)>,
        /// Where each factor stands.
        by_place: Vec<Place>,
    },
    /// `shift parent[by offset]..`
    Shift {
        /// The offsets, at least one.
        by: Vec<Expr>,
    },
}
