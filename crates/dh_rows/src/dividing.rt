//! Quotient and remainder of an index by the banks of its dimension.

ghost use Rattle.std.specs.Prelude.{◌≡◌, ◌≤◌, IfOk};
ghost use Rattle.dh_tree.specs.Shapes.{IsDim};
ghost use Rattle.dh_rows.specs.MadeOperations.{Divides, DividesByPower, DividesLong, IsSummed, TakesPart, value_doubled};

use crate::listing::{OperationList, push_compute, push_constant, push_convert, push_select};
use crate::scaling::{push_shifted, push_sum};
use crate::widths::{bit_length, is_power};
use dh_base::NoMemory;
use dh_tree::Dim;
use dh_value::Op;

/// The values of a quotient and a remainder; None is 0. The remainder is there only if it was asked for.
#[derive(Clone, Copy)]
pub struct Division {
    /// How often the divisor is in the number.
    pub quotient: Option<u64>,
    /// What is left.
    pub remainder: Option<u64>,
}

/// The quotient so far, and what is still to divide.
#[derive(Clone, Copy)]
pub(crate) struct Taking {
    pub quotient: Option<u64>,
    pub rest: u64,
}

/// Adds the quotient with one bit more: whether the part is in the rest; if so it is taken from it.
fn take_part(
    list: &mut OperationList,
    width: u8,
    so_far: Taking,
    part: u64,
) -> Result<Taking, NoMemory>
    ensures { IfOk result (TakesPart list.old list.new width so_far part) }
{
    let part = push_constant(list, width, part)?;
    let holds = push_compute(list, Op::Ge, so_far.rest, part)?;
    let less = push_compute(list, Op::Sub, so_far.rest, part)?;
    let rest = push_select(list, holds, less, so_far.rest)?;
    let bit = push_convert(list, holds, width)?;
    let twice = push_twice(list, so_far.quotient)?;
    let quotient = Some(push_sum(list, twice, bit)?);
    Ok(Taking { quotient, rest })
}

/// Adds twice a value, if there is one.
fn push_twice(list: &mut OperationList, value: Option<u64>) -> Result<Option<u64>, NoMemory>
    ensures { IfOk result (λ s. IsSummed list.new s (value_doubled list.old value)) }
{
    match value {
        None => Ok(None),
        Some(value) => Ok(Some(push_shifted(list, value, 1)?)),
    }
}

/// Divides bit by bit: the quotient has so many bits.
fn divide_long(
    list: &mut OperationList,
    width: u8,
    value: u64,
    banks: u64,
    length: u8,
) -> Result<Division, NoMemory>
    requires { length ≤ 64 }
    ensures { IfOk result (DividesLong list.old list.new width value banks length) }
{
    let mut so_far = Taking {
        quotient: None,
        rest: value,
    };
    for by in (0..length).rev() {
        so_far = take_part(list, width, so_far, banks << by)?;
    }
    Ok(Division {
        quotient: so_far.quotient,
        remainder: Some(so_far.rest),
    })
}

/// Divides by 2^length: the bits above, and those below.
fn divide_by_power(
    list: &mut OperationList,
    width: u8,
    value: u64,
    length: u8,
    banked: bool,
) -> Result<Division, NoMemory>
    ensures { IfOk result (DividesByPower list.old list.new width value length banked) }
{
    let amount = push_constant(list, 6, u64::from(length))?;
    let quotient = Some(push_compute(list, Op::Shr, value, amount)?);
    let mut remainder = None;
    if banked {
        let low = push_convert(list, value, length)?;
        remainder = Some(push_convert(list, low, width)?);
    }
    Ok(Division {
        quotient,
        remainder,
    })
}

/// Divides an index of a dimension, of the unsigned kind of this width, by its banks. `banked` says whether the
/// remainder is wanted.
pub fn divide(
    list: &mut OperationList,
    width: u8,
    value: u64,
    dim: Dim,
    banked: bool,
) -> Result<Division, NoMemory>
    requires { IsDim dim }
    ensures { IfOk result (Divides list.old list.new width value dim banked) }
{
    if dim.banks == 1 {
        return Ok(Division {
            quotient: Some(value),
            remainder: None,
        });
    }
    let rows = dim.size / dim.banks;
    if rows <= 1 {
        return Ok(Division {
            quotient: None,
            remainder: Some(value),
        });
    }
    let length = bit_length(dim.banks).saturating_sub(1);
    if is_power(dim.banks, length) {
        return divide_by_power(list, width, value, length, banked);
    }
    divide_long(
        list,
        width,
        value,
        dim.banks,
        bit_length(rows.saturating_sub(1)),
    )
}
