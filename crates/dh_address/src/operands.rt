//! Values by which an access names its element, at their new numbers.

ghost use Rattle.std.specs.Prelude.{◌≡◌, ◌++◌, IfOk, OnOk, map};
ghost use Rattle.dh_address.specs.Pieces.{operand_values};
ghost use Rattle.dh_address.specs.SeenAround.{around_seen};
ghost use Rattle.dh_address.specs.WaysMade.{operand_of, ranges_by};

use crate::literals::{constant_at, whole_at};
use crate::ranging::OldBlock;
use crate::renumbering::{Renumbering, place_from};
use dh_base::{Items, NoMemory};
use dh_tree::Dim;
use dh_value::Kind;
use std::alloc::Global;

/// A value of the new block.
#[derive(Clone, Copy)]
pub struct BlockValue {
    /// Its number, if it is a constant from 0 on.
    pub literal: Option<u64>,
    /// Its value, of whatever sign, if it is a constant of the old block.
    pub whole: Option<i128>,
    /// Its kind.
    pub kind: Kind,
    /// The value, by the number of its operation.
    pub value: u64,
}

/// A value that is to be from 0 on and below a size.
#[derive(Clone, Copy)]
pub struct Ranged {
    /// The value.
    pub operand: BlockValue,
    /// The size.
    pub size: u64,
}

/// What a value of the old plan has become.
pub fn operand_of(old: &OldBlock<'_>, known: &Renumbering, value: u64) -> BlockValue
    ensures { result ≡ operand_of (around_seen old.now known.now) value }
{
    let place = place_from(known.first, value);
    BlockValue {
        literal: constant_at(old.operations, place),
        whole: whole_at(old.operations, place),
        kind: known.kind(value),
        value: known.number(value),
    }
}

/// What values have become.
pub fn operands_of(
    old: &OldBlock<'_>,
    known: &Renumbering,
    values: &[u64],
) -> Result<Items<BlockValue>, NoMemory>
    ensures { IfOk result (λ new. new
        ≡ map (operand_of (around_seen old.now known.now)) values.now) }
{
    let mut new = Items::new(old.alloc);
    for value in values {
        new.push(operand_of(old, known, *value))?;
    }
    Ok(new)
}

/// The numbers of operands.
pub fn values_of(alloc: Global, operands: &[BlockValue]) -> Result<Items<u64>, NoMemory>
    ensures { IfOk result (λ values. values ≡ operand_values operands.now) }
{
    let mut values = Items::new(alloc);
    for operand in operands {
        values.push(operand.value)?;
    }
    Ok(values)
}

/// Notes that indices are to be within their dimensions.
pub fn note_ranges(
    ranges: &mut Items<Ranged>,
    dims: &[Dim],
    indices: &[BlockValue],
) -> Result<(), NoMemory>
    ensures { OnOk result (ranges.new ≡ ranges.old ++ ranges_by dims.now indices.now) }
{
    for i in 0..dims.len().min(indices.len()) {
        ranges.push(Ranged {
            operand: indices[i],
            size: dims[i].size,
        })?;
    }
    Ok(())
}
