//! The indices that an index of a view names in its parent.

ghost use Rattle.std.specs.Prelude.{◌≡◌, IfOk};
ghost use Rattle.dh_tree.specs.Shapes.{IsDim};
ghost use Rattle.dh_rows.specs.MadeOperations.{IsMade, dealt, moved};

use crate::dividing::divide;
use crate::listing::{OperationList, push_convert};
use crate::scaling::{push_scaled, push_sum};
use crate::spreading::{push_digit, push_or_zero};
use dh_base::NoMemory;
use dh_tree::Dim;

/// Adds an index moved by so many times an offset, modulo 2^width: both values may be of any integer kind.
///
/// # Errors
///
/// `NoMemory` where an allocation was refused.
pub fn push_moved(
    list: &mut OperationList,
    width: u8,
    factor: u64,
    offset: u64,
    index: u64,
) -> Result<u64, NoMemory>
    ensures { IfOk result (λ n. IsMade list.new n (moved list.old width factor offset index)) }
{
    let offset = push_convert(list, offset, width)?;
    let index = push_convert(list, index, width)?;
    let scaled = push_scaled(list, offset, factor)?;
    push_sum(list, scaled, index)
}

/// Adds the index of what is an element of a copy in a split of a dimension: `part` is the dimension of one of `copies`
/// copies, and each row of all banks has `part.banks` elements of a copy.
///
/// # Errors
///
/// `NoMemory` where an allocation was refused.
pub fn push_dealt(
    list: &mut OperationList,
    width: u8,
    copies: u64,
    part: Dim,
    copy: u64,
    index: u64,
) -> Result<u64, NoMemory>
    requires { IsDim part }
    ensures { IfOk result (λ n. IsMade list.new n (dealt list.old width copies part copy index)) }
{
    let copy = push_convert(list, copy, width)?;
    let index = push_convert(list, index, width)?;
    let division = divide(list, width, index, part, true)?;
    let row = push_digit(list, division.quotient, copies, Some(copy))?;
    let number = push_digit(list, row, part.banks, division.remainder)?;
    let number = push_or_zero(list, width, number)?;
    push_convert(list, number, width)
}
