//! Multiples of a value by a number, as sums of shifts.

ghost use Rattle.std.specs.Prelude.{◌≡◌, IfOk};
ghost use Rattle.dh_rows.specs.MadeOperations.{IsMade, IsSummed, value_shifted, value_added, scaled};

use crate::listing::{OperationList, push_compute, push_constant};
use crate::widths::{bit_length, has_bit};
use dh_base::NoMemory;
use dh_value::Op;

/// Adds a value shifted to the left by so many bits, fewer than 64.
pub fn push_shifted(list: &mut OperationList, value: u64, by: u8) -> Result<u64, NoMemory>
    ensures { IfOk result (λ n. IsMade list.new n (value_shifted list.old value by)) }
{
    if by == 0 {
        return Ok(value);
    }
    let amount = push_constant(list, 6, u64::from(by))?;
    push_compute(list, Op::Shl, value, amount)
}

/// Adds the sum of a value and one that may lack, and is then 0.
pub fn push_sum(list: &mut OperationList, sum: Option<u64>, value: u64) -> Result<u64, NoMemory>
    ensures { IfOk result (λ n. IsMade list.new n (value_added list.old sum value)) }
{
    match sum {
        None => Ok(value),
        Some(first) => push_compute(list, Op::Add, first, value),
    }
}

/// Adds so many times a value; nothing where the factor is 0.
pub fn push_scaled(
    list: &mut OperationList,
    value: u64,
    factor: u64,
) -> Result<Option<u64>, NoMemory>
    ensures { IfOk result (λ s. IsSummed list.new s (scaled list.old value factor)) }
{
    let mut sum = None;
    for by in (0..bit_length(factor)).rev() {
        if has_bit(factor, by) {
            let part = push_shifted(list, value, by)?;
            sum = Some(push_sum(list, sum, part)?);
        }
    }
    Ok(sum)
}
