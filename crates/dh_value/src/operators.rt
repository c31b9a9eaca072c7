//! The operators of two operands.

/// An operator. Its operands are of one integer kind, where no others are named.
#[derive(Clone, Copy, Debug, PartialEq, Eq)]
pub enum Op {
    /// The sum, modulo 2^width.
    Add,
    /// The difference, modulo 2^width.
    Sub,
    /// The product, modulo 2^width.
    Mul,
    /// The bitwise and.
    And,
    /// The bitwise or.
    Or,
    /// The bitwise exclusive or.
    Xor,
    /// The left operand times 2^right, modulo 2^width. The right one is unsigned, of any width.
    Shl,
    /// The left operand divided by 2^right, rounded down. The right one is unsigned, of any width.
    Shr,
    /// Whether the left operand is the smaller.
    Lt,
    /// Whether the left operand is the greater.
    Gt,
    /// Whether the left operand is not the greater.
    Le,
    /// Whether the left operand is not the smaller.
    Ge,
    /// Whether both are equal, also of Bool.
    Eq,
    /// Whether they differ, also of Bool.
    Ne,
    /// Whether both are true, of Bool.
    Both,
    /// Whether at least one is true, of Bool.
    Either,
}
