//! Indices behind a split: which copy, and which element of its share, as one index of the parent.

ghost use Rattle.std.specs.Prelude.{◌≡◌, IfOk};
ghost use Rattle.std.specs.List.{AllByRecursion};
ghost use Rattle.dh_tree.specs.Shapes.{IsDim};
ghost use Rattle.dh_rows.specs.MadeOperations.{IsMade};
ghost use Rattle.dh_address.specs.WaysMade.{IsDealt, IsPlacedOperand, dealt_as, dealt_literal, dealt_made, dealt_one, dealt_operand, share_dealt, split_made};

use crate::literals::known_below;
use crate::numbers::{quotient, remainder};
use crate::operands::BlockValue;
use dh_base::{Items, NoMemory};
use dh_rows::{OperationList, moved_width, push_constant, push_dealt};
use dh_tree::Dim;
use dh_value::Kind;
use std::alloc::Global;

/// The index that constants give, where both are in range.
fn dealt_literal(copy: Option<u64>, index: Option<u64>, copies: u64, part: Dim) -> Option<u64>
    ensures { result ≡ dealt_literal copy index copies part }
{
    match known_below(copy, copies) {
        None => None,
        Some(copy) => match known_below(index, part.size) {
            None => None,
            Some(index) => Some(
                quotient(index, part.banks)
                    .wrapping_mul(copies)
                    .wrapping_add(copy)
                    .wrapping_mul(part.banks)
                    .wrapping_add(remainder(index, part.banks)),
            ),
        },
    }
}

/// Adds the index of an element of a copy, as a constant where it is one.
fn push_dealt_or(
    list: &mut OperationList,
    literal: Option<u64>,
    width: u8,
    copies: u64,
    part: Dim,
    copy: u64,
    index: u64,
) -> Result<u64, NoMemory>
    requires { IsDim part }
    ensures { IfOk result (λ n. IsMade list.new n
        (dealt_made list.old literal width copies part copy index)) }
{
    match literal {
        Some(number) => push_constant(list, width, number),
        None => push_dealt(list, width, copies, part, copy, index),
    }
}

/// Adds the index of an element of a copy, with what is known of it.
fn deal_as(
    list: &mut OperationList,
    literal: Option<u64>,
    width: u8,
    copies: u64,
    part: Dim,
    copy: u64,
    index: u64,
) -> Result<BlockValue, NoMemory>
    requires { IsDim part }
    ensures { IfOk result (λ o. IsPlacedOperand list.new o
        (dealt_as literal list.old width copies part copy index)) }
{
    let value = push_dealt_or(list, literal, width, copies, part, copy, index)?;
    Ok(BlockValue {
        literal,
        whole: None,
        kind: Kind::Unsigned(width),
        value,
    })
}

/// Adds the index of the parent, a dimension of this size.
fn deal_operand(
    list: &mut OperationList,
    size: u64,
    copies: u64,
    part: Dim,
    copy: BlockValue,
    index: BlockValue,
) -> Result<BlockValue, NoMemory>
    requires { IsDim part }
    ensures { IfOk result (λ o. IsPlacedOperand list.new o
        (dealt_operand list.old size copies part copy index)) }
{
    let literal = dealt_literal(copy.literal, index.literal, copies, part);
    deal_as(
        list,
        literal,
        moved_width(size),
        copies,
        part,
        copy.value,
        index.value,
    )
}

/// Adds the index of the parent as the only one.
fn deal_one(
    list: &mut OperationList,
    alloc: Global,
    size: u64,
    copies: u64,
    part: Dim,
    copy: BlockValue,
    index: BlockValue,
) -> Result<Items<BlockValue>, NoMemory>
    requires { IsDim part }
    ensures { IfOk result (IsDealt (dealt_one (dealt_operand list.old size copies part copy index))
        list.new) }
{
    let index = deal_operand(list, size, copies, part, copy, index)?;
    let mut dealt = Items::new(alloc);
    dealt.push(index)?;
    Ok(dealt)
}

/// Adds the index of the parent of so many copies and a share; none where a dimension or an index lacks.
fn deal_share(
    list: &mut OperationList,
    alloc: Global,
    copies: Dim,
    part: Dim,
    parent: &[Dim],
    indices: &[BlockValue],
) -> Result<Items<BlockValue>, NoMemory>
    requires { IsDim part }
    ensures { IfOk result (IsDealt (share_dealt copies part parent.now indices.now list.old)
        list.new) }
{
    match parent.get(0) {
        None => Ok(Items::new(alloc)),
        Some(whole) => match indices.get(0) {
            None => Ok(Items::new(alloc)),
            Some(copy) => match indices.get(1) {
                None => Ok(Items::new(alloc)),
                Some(index) => {
                    deal_one(list, alloc, whole.size, copies.size, part, *copy, *index)
                }
            },
        },
    }
}

/// Adds the index of the parent; none where these are no dimensions of a split.
pub fn deal_all(
    list: &mut OperationList,
    alloc: Global,
    view: &[Dim],
    parent: &[Dim],
    indices: &[BlockValue],
) -> Result<Items<BlockValue>, NoMemory>
    requires { AllByRecursion IsDim view.now }
    ensures { IfOk result (IsDealt (split_made view.now parent.now indices.now list.old) list.new) }
{
    match view.get(0) {
        None => Ok(Items::new(alloc)),
        Some(copies) => match view.get(1) {
            None => Ok(Items::new(alloc)),
            Some(part) => deal_share(list, alloc, *copies, *part, parent, indices),
        },
    }
}
