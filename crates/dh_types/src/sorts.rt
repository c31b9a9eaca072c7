//! Sorts of kinds and of operators.

ghost use Rattle.std.specs.Prelude.{◌≡◌, ◌<◌, ◌^◌, ◌↔◌, IsTrue, pos};
ghost use Rattle.dh_tree.specs.Kinds as rules;
ghost use Rattle.dh_tree.specs.WiderKinds as kinds;
ghost use Rattle.dh_value.specs.Words.{IsValue};

use dh_tree::Kind;
use dh_value::{Op, fits};

/// Whether the kind is one of numbers.
pub fn is_integer(kind: Kind) -> bool
    ensures { result ≡ rules.is_integer kind }
{
    match kind {
        Kind::Unsigned(_) | Kind::Signed(_) => true,
        Kind::Bool => false,
    }
}

/// Whether the kind is Bool.
pub fn is_truth(kind: Kind) -> bool
    ensures { result ≡ rules.is_truth kind }
{
    match kind {
        Kind::Bool => true,
        Kind::Unsigned(_) | Kind::Signed(_) => false,
    }
}

/// Whether the kind has no negative numbers.
pub fn is_unsigned(kind: Kind) -> bool
    ensures { result ≡ rules.is_unsigned kind }
{
    match kind {
        Kind::Unsigned(_) => true,
        Kind::Bool | Kind::Signed(_) => false,
    }
}

/// Whether the kinds are of one sign, or both Bool.
pub fn are_alike(left: Kind, right: Kind) -> bool
    ensures { result ≡ rules.are_alike left right }
{
    match (left, right) {
        (Kind::Bool, Kind::Bool) => true,
        (Kind::Unsigned(_), Kind::Unsigned(_)) => true,
        (Kind::Signed(_), Kind::Signed(_)) => true,
        _ => false,
    }
}

/// Whether the first kind is the wider of two of one sign.
pub fn is_wider(kind: Kind, other: Kind) -> bool
    ensures { result ≡ rules.is_wider kind other }
{
    match (kind, other) {
        (Kind::Unsigned(width), Kind::Unsigned(other)) => other < width,
        (Kind::Signed(width), Kind::Signed(other)) => other < width,
        _ => false,
    }
}

/// The wider of two kinds of one sign.
pub fn wider(left: Kind, right: Kind) -> Kind
    ensures { result ≡ kinds.wider left right }
{
    match (left, right) {
        (Kind::Unsigned(left), Kind::Unsigned(right)) => Kind::Unsigned(left.max(right)),
        (Kind::Signed(left), Kind::Signed(right)) => Kind::Signed(left.max(right)),
        _ => Kind::Bool,
    }
}

/// A kind that the numbers of a bare expression can take.
pub fn for_numbers(kind: Option<Kind>) -> Option<Kind>
    ensures { result ≡ rules.for_numbers kind }
{
    match kind {
        Some(kind) if is_integer(kind) => Some(kind),
        _ => None,
    }
}

// Whether the number has at most so many bits.
fn is_within(number: u64, width: u8) -> bool
    ensures { IsTrue result ↔ (number < 2 ^ width) }
{
    width >= 64 || number >> width == 0
}

// Whether the number, which has no `-`, is a value of the kind.
fn is_whole_value(kind: Kind, number: u64) -> bool
    ensures { IsTrue result ↔ IsValue kind (pos number) }
{
    match kind {
        Kind::Bool => false,
        Kind::Unsigned(width) => is_within(number, width),
        Kind::Signed(width) => is_within(number, width.saturating_sub(1)),
    }
}

/// Whether the number, with a `-` before it where it is negative, is a value of the kind.
pub fn is_value(kind: Kind, negative: bool, number: u64) -> bool
    ensures { result ≡ rules.is_value kind (rules.signed_number negative number) }
{
    if negative {
        fits(kind, -i128::from(number))
    } else {
        is_whole_value(kind, number)
    }
}

/// Whether the operator is a shift.
pub fn is_shift(op: Op) -> bool
    ensures { result ≡ rules.is_shift op }
{
    match op {
        Op::Shl | Op::Shr => true,
        _ => false,
    }
}

/// Whether an operation on bare operands is bare.
pub fn keeps_bare(op: Op) -> bool
    ensures { result ≡ rules.keeps_bare op }
{
    match op {
        Op::Add | Op::Sub | Op::Mul | Op::And | Op::Or | Op::Xor | Op::Shl | Op::Shr => true,
        _ => false,
    }
}
