//! Tests of indices against sizes.

ghost use Rattle.std.specs.Prelude.{◌≡◌, ◌-◌, ◌^◌, min, IfOk, OnOk};
ghost use Rattle.dh_rows.specs.Readings.{GrowsPlain};
ghost use Rattle.dh_rows.specs.RowsShown.{MakesTest};
ghost use Rattle.dh_rows.specs.MadeOperations.{IsSummed, bounded, value_tested};

use crate::listing::{OperationList, push_compute, push_constant, push_convert};
use crate::widths::has_few;
use dh_base::NoMemory;
use dh_value::{Kind, Op};

/// Adds whether a value of the unsigned kind of this width is below a bound; None where each is.
fn push_below(
    list: &mut OperationList,
    width: u8,
    value: u64,
    bound: u64,
) -> Result<Option<u64>, NoMemory>
    ensures { IfOk result (λ t. IsSummed list.new t (bounded list.old width value bound)) }
{
    if has_few(width, bound) {
        return Ok(None);
    }
    let bound = push_constant(list, width, bound)?;
    Ok(Some(push_compute(list, Op::Lt, value, bound)?))
}

/// The least of a size and half of the numbers of so many bits.
fn half_or(width: u8, size: u64) -> u64
    ensures { result ≡ min size (2 ^ (width - 1)) }
{
    let half = width.saturating_sub(1);
    if has_few(half, size) {
        return 1u64 << half.min(63);
    }
    size
}

/// Adds a test of a value, by its kind.
fn test_kind(
    list: &mut OperationList,
    kind: Kind,
    value: u64,
    size: u64,
) -> Result<Option<u64>, NoMemory>
    ensures { IfOk result (λ t. IsSummed list.new t (value_tested list.old kind value size)) }
{
    match kind {
        Kind::Bool => Ok(None),
        Kind::Unsigned(width) => push_below(list, width, value, size),
        Kind::Signed(width) => {
            // without its sign a value below 0 is at least half of all numbers
            let bits = push_convert(list, value, width)?;
            push_below(list, width, bits, half_or(width, size))
        }
    }
}

/// Adds whether a value of this integer kind is from 0 on and below a size; None where each is.
///
/// # Errors
///
/// `NoMemory` where an allocation was refused.
pub fn push_test(
    list: &mut OperationList,
    kind: Kind,
    value: u64,
    size: u64,
) -> Result<Option<u64>, NoMemory>
    ensures grows { OnOk result (GrowsPlain list.old list.new) }
    ensures made { IfOk result (MakesTest list.old list.new kind value size) }
{
    test_kind(list, kind, value, size)
}
