//! Names where they stand, and expressions.

use crate::tables::Name;
use dh_base::Place;
use dh_value::{Kind, Op};

/// A name where it stands in the text.
#[derive(Drop)]
pub struct Ref {
    /// The name.
    pub name: Name,
    /// The place of its first byte.
    pub place: Place,
    /// The number of what it names among the entities of the tree; None until names are resolved.
    pub entity: Option<u32>,
}

/// An expression. Parentheses leave none.
#[cycle(expressions)]
#[derive(Drop)]
pub struct Expr {
    /// The place of its first token, that of the left operand for an operator. Around parentheses
    /// it is that of what they hold.
    pub place: Place,
    /// The kind of its value; None until kinds are found.
    pub kind: Option<Kind>,
    /// What it is.
    pub form: ExprForm,
}

/// What an expression is.
#[cycle(expressions)]
#[derive(Drop)]
pub enum ExprForm {
    /// `value`, or `- value`.
    Number {
        /// Whether it has a `-`.
        negative: bool,
        /// The number without the sign.
        value: u64,
    },
    /// `true` or `false`.
    Truth {
        /// Which of them.
        value: bool,
    },
    /// A name alone.
    Variable {
        /// The name.
        of: Ref,
    },
    /// `of[index]..`
    Access {
        /// The memory or view.
        of: Ref,
        /// The indices, at least one.
        indices: Vec<Expr>,
    },
    /// `of{bank}[row]`
    Physical {
        /// The memory.
        of: Ref,
        /// The number of the bank.
        bank: u64,
        /// Where that number stands.
        bank_place: Place,
        /// The row in that bank.
        row: Box<Expr>,
    },
    /// `left op right`
    Binary {
        /// The operator.
        op: Op,
        /// The left operand.
        left: Box<Expr>,
        /// The right operand.
        right: Box<Expr>,
    },
    /// `(inner as to)`
    Cast {
        /// What is cast.
        inner: Box<Expr>,
        /// The kind that it is cast to.
        to: Kind,
    },
}
