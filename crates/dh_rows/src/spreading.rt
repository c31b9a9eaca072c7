//! The bank and the row of an element, of its indices.

ghost use Rattle.std.specs.Prelude.{IfOk, OnOk};
ghost use Rattle.std.specs.List.{AllByRecursion};
ghost use Rattle.dh_tree.specs.Shapes.{IsDim};
ghost use Rattle.dh_rows.specs.Readings.{GrowsPlain};
ghost use Rattle.dh_rows.specs.RowsShown.{MakesRow};
ghost use Rattle.dh_rows.specs.MadeOperations.{IsMade, IsSummed, SpreadsEach, SpreadsOne, digit_added, or_zero, times};

use crate::dividing::divide;
use crate::listing::{OperationList, push_constant, push_convert};
use crate::scaling::{push_scaled, push_sum};
use dh_base::NoMemory;
use dh_tree::Dim;

/// The values of a row and a bank; None is 0. The bank is there only if it was asked for.
#[derive(Clone, Copy)]
pub struct RowAndBank {
    /// The row of the element in its bank.
    pub row: Option<u64>,
    /// The bank of the element.
    pub bank: Option<u64>,
}

/// A value, or 0 in the unsigned kind of this width where it lacks.
pub fn push_or_zero(
    list: &mut OperationList,
    width: u8,
    value: Option<u64>,
) -> Result<u64, NoMemory>
    ensures { IfOk result (λ n. IsMade list.new n (or_zero list.old width value)) }
{
    match value {
        None => push_constant(list, width, 0),
        Some(value) => Ok(value),
    }
}

/// Adds so many times a value, if there is one.
fn push_times(
    list: &mut OperationList,
    sum: Option<u64>,
    factor: u64,
) -> Result<Option<u64>, NoMemory>
    ensures { IfOk result (λ s. IsSummed list.new s (times list.old sum factor)) }
{
    match sum {
        None => Ok(None),
        Some(sum) => push_scaled(list, sum, factor),
    }
}

/// Adds a number with one digit more: so many times the number so far, and the digit.
pub fn push_digit(
    list: &mut OperationList,
    sum: Option<u64>,
    factor: u64,
    digit: Option<u64>,
) -> Result<Option<u64>, NoMemory>
    ensures { IfOk result (λ s. IsSummed list.new s (digit_added list.old sum factor digit)) }
{
    let scaled = push_times(list, sum, factor)?;
    match digit {
        None => Ok(scaled),
        Some(digit) => Ok(Some(push_sum(list, scaled, digit)?)),
    }
}

/// Adds what one dimension has to row and bank.
fn spread_one(
    list: &mut OperationList,
    width: u8,
    dim: Dim,
    index: u64,
    banked: bool,
    so_far: RowAndBank,
) -> Result<RowAndBank, NoMemory>
    requires { IsDim dim }
    ensures { IfOk result (SpreadsOne list.old list.new width dim index banked so_far) }
{
    let index = push_convert(list, index, width)?;
    let division = divide(list, width, index, dim, banked)?;
    let row = push_digit(list, so_far.row, dim.size / dim.banks, division.quotient)?;
    if !banked {
        return Ok(RowAndBank { row, bank: None });
    }
    let bank = push_digit(list, so_far.bank, dim.banks, division.remainder)?;
    Ok(RowAndBank { row, bank })
}

/// Adds row and bank of the element of these indices, dimension by dimension.
fn spread_each(
    list: &mut OperationList,
    width: u8,
    dims: &[Dim],
    indices: &[u64],
    banked: bool,
) -> Result<RowAndBank, NoMemory>
    requires { AllByRecursion IsDim dims.now }
    ensures { IfOk result (SpreadsEach list.old list.new width dims.now indices.now banked) }
{
    let mut so_far = RowAndBank {
        row: None,
        bank: None,
    };
    for i in 0..dims.len().min(indices.len()) {
        so_far = spread_one(list, width, dims[i], indices[i], banked, so_far)?;
    }
    Ok(RowAndBank {
        row: so_far.row,
        bank: so_far.bank,
    })
}

/// Adds row and bank of the element of these indices; `banked` says whether the bank is wanted. All new numbers are
/// of the unsigned kind of this width, which has every number below the memory's elements, and them.
///
/// # Errors
///
/// `NoMemory` where an allocation was refused.
pub fn spread(
    list: &mut OperationList,
    width: u8,
    dims: &[Dim],
    indices: &[u64],
    banked: bool,
) -> Result<RowAndBank, NoMemory>
    requires { AllByRecursion IsDim dims.now }
    ensures grows { OnOk result (GrowsPlain list.old list.new) }
    ensures made { IfOk result (MakesRow list.old list.new width dims.now indices.now banked) }
{
    spread_each(list, width, dims, indices, banked)
}
