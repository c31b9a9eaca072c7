//! Indices behind a view that moves: each offset is tested by itself, and then the index is moved by so many times it.

ghost use Rattle.std.specs.Prelude.{◌≡◌, ◌++◌, ◌-◌, IfOk, OnOk};
ghost use Rattle.dh_rows.specs.MadeOperations.{IsMade};
ghost use Rattle.dh_address.specs.WaysMade.{IsBounded, IsPlacedOperand, IsIndexWay, index_moved, is_near, maybe_range, moved_all, moved_as, moved_literal, moved_made, moved_one, moved_operand, offset_bounded, unit_factors, steps_by, way};

use crate::literals::known_below;
use crate::numbers::quotient;
use crate::operands::{BlockValue, Ranged};
use dh_base::{Items, NoMemory};
use dh_rows::{OperationList, moved_width, push_constant, push_moved, push_span};
use dh_tree::Dim;
use dh_value::Kind;
use std::alloc::Global;

/// Above every number of 64 bits.
const WORD_BOUND: u128 = 1 << 64;

/// Whether it is known that an offset is no further from 0 than a bound.
fn is_near(offset: Option<i128>, bound: u64) -> bool
    ensures { result ≡ is_near offset bound }
{
    match offset {
        None => false,
        Some(offset) => offset.unsigned_abs() <= u128::from(bound),
    }
}

/// Adds what is to be in range where an offset is no further from 0 than a bound; None where it always is.
fn push_bounded(
    list: &mut OperationList,
    offset: BlockValue,
    bound: u64,
) -> Result<Option<Ranged>, NoMemory>
    ensures { IfOk result (λ range. IsBounded list.new range
        (offset_bounded list.old offset bound)) }
{
    if is_near(offset.whole, bound) {
        return Ok(None);
    }
    match push_span(list, offset.kind, offset.value, bound)? {
        None => Ok(None),
        Some(span) => {
            let operand = BlockValue {
                literal: None,
                whole: None,
                kind: span.kind,
                value: span.value,
            };
            Ok(Some(Ranged {
                operand,
                size: span.size,
            }))
        }
    }
}

/// An index that moved by so much, back or on, if it is not below 0. Numbers wrap.
fn index_moved(back: bool, by: u64, index: u64) -> Option<u64>
    ensures { result ≡ index_moved back by index }
{
    if !back {
        return Some(by.wrapping_add(index));
    }
    if by <= index { Some(index - by) } else { None }
}

/// By how much an offset moves an index. Numbers wrap.
fn steps_by(offset: i128, factor: u64) -> u64
    ensures { result ≡ steps_by offset factor }
{
    let size = offset.unsigned_abs();
    let steps = if size < WORD_BOUND { size as u64 } else { 0 };
    steps.wrapping_mul(factor)
}

/// The index that constants give, where it is in range.
fn moved_literal(offset: Option<i128>, index: Option<u64>, factor: u64, size: u64) -> Option<u64>
    ensures { result ≡ moved_literal offset index factor size }
{
    match offset {
        None => None,
        Some(offset) => match index {
            None => None,
            Some(index) => {
                let moved = index_moved(offset < 0, steps_by(offset, factor), index);
                known_below(moved, size)
            }
        },
    }
}

/// Adds an index that an offset moved, as a constant where it is one.
fn push_moved_or(
    list: &mut OperationList,
    literal: Option<u64>,
    width: u8,
    factor: u64,
    offset: u64,
    index: u64,
) -> Result<u64, NoMemory>
    ensures { IfOk result (λ n. IsMade list.new n
        (moved_made list.old literal width factor offset index)) }
{
    match literal {
        Some(number) => push_constant(list, width, number),
        None => push_moved(list, width, factor, offset, index),
    }
}

/// Adds an index that an offset moved, with what is known of it.
fn move_as(
    list: &mut OperationList,
    literal: Option<u64>,
    width: u8,
    factor: u64,
    offset: u64,
    index: u64,
) -> Result<BlockValue, NoMemory>
    ensures { IfOk result (λ o. IsPlacedOperand list.new o
        (moved_as literal list.old width factor offset index)) }
{
    let value = push_moved_or(list, literal, width, factor, offset, index)?;
    Ok(BlockValue {
        literal,
        whole: None,
        kind: Kind::Unsigned(width),
        value,
    })
}

/// Adds the index of the parent, in a dimension of this size.
fn move_operand(
    list: &mut OperationList,
    size: u64,
    factor: u64,
    offset: BlockValue,
    index: BlockValue,
) -> Result<BlockValue, NoMemory>
    ensures { IfOk result (λ o. IsPlacedOperand list.new o
        (moved_operand list.old size factor offset index)) }
{
    let literal = moved_literal(offset.whole, index.literal, factor, size);
    move_as(
        list,
        literal,
        moved_width(size),
        factor.min(size),
        offset.value,
        index.value,
    )
}

/// Notes what is to be in range, if anything is.
fn note_range(ranges: &mut Items<Ranged>, range: Option<Ranged>) -> Result<(), NoMemory>
    ensures { OnOk result (ranges.new ≡ ranges.old ++ maybe_range range) }
{
    if let Some(range) = range {
        ranges.push(range)?;
    }
    Ok(())
}

/// Adds the index of the parent in one dimension, and notes what is to be in range of its offset.
fn move_one(
    list: &mut OperationList,
    size: u64,
    factor: u64,
    offset: BlockValue,
    index: BlockValue,
    ranges: &mut Items<Ranged>,
    moved: &mut Items<BlockValue>,
) -> Result<(), NoMemory>
    ensures { OnOk result (IsIndexWay list.new ranges.new moved.new
        (moved_one size factor offset index (way list.old ranges.old moved.old))) }
{
    let range = push_bounded(list, offset, quotient(size.saturating_sub(1), factor))?;
    note_range(ranges, range)?;
    let index = move_operand(list, size, factor, offset, index)?;
    moved.push(index)?;
    Ok(())
}

/// Adds the indices of the parent, dimension by dimension.
pub fn move_all(
    list: &mut OperationList,
    dims: &[Dim],
    factors: &[u64],
    offsets: &[BlockValue],
    indices: &[BlockValue],
    ranges: &mut Items<Ranged>,
    moved: &mut Items<BlockValue>,
) -> Result<(), NoMemory>
    ensures { OnOk result (IsIndexWay list.new ranges.new moved.new
        (moved_all dims.now factors.now offsets.now indices.now
        (way list.old ranges.old moved.old))) }
{
    let count = dims.len().min(factors.len());
    let count = count.min(offsets.len()).min(indices.len());
    for i in 0..count {
        move_one(
            list,
            dims[i].size,
            factors[i],
            offsets[i],
            indices[i],
            ranges,
            moved,
        )?;
    }
    Ok(())
}

/// A factor of 1 for each dimension.
pub fn ones_of(alloc: Global, dims: &[Dim]) -> Result<Items<u64>, NoMemory>
    ensures { IfOk result (λ factors. factors ≡ unit_factors dims.now) }
{
    let mut factors = Items::new(alloc);
    for _dim in dims {
        factors.push(1)?;
    }
    Ok(factors)
}
