//! Offsets of views that are small: no further from 0 than a bound, to either side.

ghost use Rattle.std.specs.Prelude.{◌≡◌, IfOk};
ghost use Rattle.dh_rows.specs.MadeOperations.{IsMade, IsSpanned, centred, centred_span, spanned};

use crate::listing::{OperationList, push_compute, push_constant, push_convert};
use crate::widths::has_few;
use dh_base::NoMemory;
use dh_value::{Kind, Op};

/// A value of a kind that is from 0 on and below a size exactly where an offset is small.
#[derive(Clone, Copy)]
pub struct Span {
    /// The kind of the value.
    pub kind: Kind,
    /// The value.
    pub value: u64,
    /// The size.
    pub size: u64,
}

/// Adds a value and a bound, modulo 2^width.
fn push_centred(
    list: &mut OperationList,
    width: u8,
    value: u64,
    bound: u64,
) -> Result<u64, NoMemory>
    ensures { IfOk result (λ n. IsMade list.new n (centred list.old width value bound)) }
{
    let bits = push_convert(list, value, width)?;
    let bound = push_constant(list, width, bound)?;
    push_compute(list, Op::Add, bits, bound)
}

/// Adds what tells whether an offset with a sign is small; None where each is.
fn push_signed(
    list: &mut OperationList,
    width: u8,
    value: u64,
    bound: u64,
) -> Result<Option<Span>, NoMemory>
    ensures { IfOk result (λ s. IsSpanned list.new s (centred_span list.old width value bound)) }
{
    if has_few(width.saturating_sub(1), bound) {
        return Ok(None);
    }
    let centred = push_centred(list, width, value, bound)?;
    Ok(Some(Span {
        kind: Kind::Unsigned(width),
        value: centred,
        size: bound.wrapping_mul(2).wrapping_add(1),
    }))
}

/// Adds what tells whether an offset of this kind is small: None where each is.
///
/// # Errors
///
/// `NoMemory` where an allocation was refused.
pub fn push_span(
    list: &mut OperationList,
    kind: Kind,
    value: u64,
    bound: u64,
) -> Result<Option<Span>, NoMemory>
    ensures { IfOk result (λ s. IsSpanned list.new s (spanned list.old kind value bound)) }
{
    match kind {
        Kind::Bool => Ok(None),
        Kind::Unsigned(width) => Ok(Some(Span {
            kind: Kind::Unsigned(width),
            value,
            size: bound.wrapping_add(1),
        })),
        Kind::Signed(width) => push_signed(list, width, value, bound),
    }
}
