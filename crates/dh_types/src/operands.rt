//! Operations and their operands: what they ask for, and what kind they have.

ghost use Rattle.std.specs.Prelude.{◌≡◌, true};
ghost use Rattle.dh_tree.specs.Kinds as rules;
ghost use Rattle.dh_types.specs.Facts.{listed_breach};
ghost use Rattle.dh_types.specs.Judging.{JudgesOperands};

use crate::keeping::mismatch_unless;
use crate::sorts::{
    are_alike, for_numbers, is_integer, is_shift, is_truth, is_unsigned, keeps_bare, wider,
};
use dh_base::Place;
use dh_tree::{Breach, Kind};
use dh_value::Op;

/// What the place of a bare left operand asks for, beside a right one that has its kind if it is not
/// bare.
pub fn left_want(op: Op, want: Option<Kind>, bare_right: bool, right: Option<Kind>) -> Option<Kind>
    ensures { result ≡ rules.left_want op want true bare_right right }
{
    if bare_right {
        if keeps_bare(op) { want } else { None }
    } else if is_shift(op) {
        None
    } else {
        for_numbers(right)
    }
}

/// What the place of a bare right operand asks for, beside a left one that has its kind if it is not
/// bare.
pub fn right_want(op: Op, want: Option<Kind>, bare_left: bool, left: Option<Kind>) -> Option<Kind>
    ensures { result ≡ rules.right_want op want bare_left true left }
{
    if is_shift(op) {
        Some(Kind::Unsigned(32))
    } else if !bare_left {
        for_numbers(left)
    } else if keeps_bare(op) {
        want
    } else {
        None
    }
}

// The breach of an operation on numbers of one sign.
fn numbers_breach(left: Place, right: Place, kinds: (Kind, Kind)) -> Option<Breach>
    ensures { JudgesOperands rules.two_numbers left right kinds result }
{
    if is_integer(kinds.0) {
        mismatch_unless(are_alike(kinds.0, kinds.1), right)
    } else {
        mismatch_unless(false, left)
    }
}

// The breach of a shift of a number by an amount.
fn shift_breach(left: Place, right: Place, kinds: (Kind, Kind)) -> Option<Breach>
    ensures { JudgesOperands rules.number_and_amount left right kinds result }
{
    if is_integer(kinds.0) {
        mismatch_unless(is_unsigned(kinds.1), right)
    } else {
        mismatch_unless(false, left)
    }
}

// The breach of an operation on two truths.
fn truths_breach(left: Place, right: Place, kinds: (Kind, Kind)) -> Option<Breach>
    ensures { JudgesOperands rules.two_truths left right kinds result }
{
    if is_truth(kinds.0) {
        mismatch_unless(is_truth(kinds.1), right)
    } else {
        mismatch_unless(false, left)
    }
}

// The breach of an operation on operands of two kinds: at the first operand of a sort that it does not
// take, or at the right one where the signs differ.
fn operands_breach(op: Op, left: Place, right: Place, kinds: (Kind, Kind)) -> Option<Breach>
    ensures { JudgesOperands (rules.takes op) left right kinds result }
{
    match op {
        Op::Add
        | Op::Sub
        | Op::Mul
        | Op::And
        | Op::Or
        | Op::Xor
        | Op::Lt
        | Op::Gt
        | Op::Le
        | Op::Ge => numbers_breach(left, right, kinds),
        Op::Shl | Op::Shr => shift_breach(left, right, kinds),
        Op::Eq | Op::Ne => mismatch_unless(are_alike(kinds.0, kinds.1), right),
        Op::Both | Op::Either => truths_breach(left, right, kinds),
    }
}

// The kind of an operation on operands of two kinds.
fn kind_of_operation(op: Op, left: Kind, right: Kind) -> Kind
    ensures { result ≡ rules.applied_kind op left right }
{
    match op {
        Op::Add | Op::Sub | Op::Mul | Op::And | Op::Or | Op::Xor => wider(left, right),
        Op::Shl | Op::Shr => left,
        Op::Lt | Op::Gt | Op::Le | Op::Ge | Op::Eq | Op::Ne | Op::Both | Op::Either => Kind::Bool,
    }
}

/// The breach of an operation; none where an operand has no kind.
pub fn applied_breach(
    op: Op,
    left: (Place, Option<Kind>),
    right: (Place, Option<Kind>),
) -> Option<Breach>
    ensures { listed_breach result ≡ rules.applied_breaches op left.0 right.0 left.1 right.1 }
{
    match (left.1, right.1) {
        (Some(a), Some(b)) => operands_breach(op, left.0, right.0, (a, b)),
        _ => None,
    }
}

/// The kind of an operation; none where an operand has none, and where the operator does not take them.
pub fn applied_kind(
    op: Op,
    left: (Place, Option<Kind>),
    right: (Place, Option<Kind>),
) -> Option<Kind>
    ensures { result ≡ rules.applied_found op left.0 right.0 left.1 right.1 }
{
    match (left.1, right.1) {
        (Some(a), Some(b)) => match operands_breach(op, left.0, right.0, (a, b)) {
            Some(_) => None,
            None => Some(kind_of_operation(op, a, b)),
        },
        _ => None,
    }
}
