//! Accesses of rows of banks.

ghost use Rattle.std.specs.Prelude.{◌≡◌, IfOk, length};
ghost use Rattle.std.specs.List.{AllByRecursion};
ghost use Rattle.dh_tree.specs.Elements.{dims_at};
ghost use Rattle.dh_tree.specs.Shapes.{IsDim, IsProgramTable};
ghost use Rattle.dh_rows.specs.MadeOperations.{IsMade, IsSummed, constant_made, or_zero};
ghost use Rattle.dh_address.specs.Pieces.{IsAim, IsAimedReach, IsAimedByIndices, IsIndexAim, IsSpreadOut, aimed_reach, is_banked, narrowed_bank, row_aimed, select_width, waited};
ghost use Rattle.dh_address.specs.SeenAround.{around_seen};

use crate::literals::{LiteralPlace, constant_place};
use crate::operands::{BlockValue, values_of};
use crate::ranging::{OldBlock, bank_total, dims_in, element_total};
use crate::renumbering::Renumbering;
use dh_base::{Items, NoMemory};
use dh_plan::{ApartReach, Reach};
use dh_rows::{OperationList, bit_length, push_constant, push_convert, push_or_zero, spread};
use dh_tree::Dim;

/// The values of a row, and of its bank where there are several.
#[derive(Clone, Copy)]
pub struct AimedRow {
    /// The row.
    pub row: u64,
    /// The bank.
    pub select: Option<u64>,
}

/// How many bits a select takes.
fn select_width(dims: &[Dim]) -> u8
    ensures { result ≡ select_width dims.now }
{
    let greatest = bank_total(dims).saturating_sub(1).max(1);
    bit_length(greatest)
}

/// Adds a row, and its bank where that is wanted, of an element that is known.
fn push_place(
    list: &mut OperationList,
    width: u8,
    narrow: u8,
    place: LiteralPlace,
    banked: bool,
) -> Result<AimedRow, NoMemory>
    ensures { IfOk result (λ a. IsAim banked (constant_made list.old width place.row)
        (constant_made (constant_made list.old width place.row).operations narrow place.bank)
        list.new a.row a.select) }
{
    let row = push_constant(list, width, place.row)?;
    if !banked {
        return Ok(AimedRow { row, select: None });
    }
    let select = Some(push_constant(list, narrow, place.bank)?);
    Ok(AimedRow { row, select })
}

/// Adds a bank as a select. Each test which bank is picked is then of few bits.
fn push_select(
    list: &mut OperationList,
    width: u8,
    narrow: u8,
    bank: Option<u64>,
) -> Result<u64, NoMemory>
    ensures { IfOk result (λ n. IsMade list.new n
        (narrowed_bank narrow (or_zero list.old width bank))) }
{
    let bank = push_or_zero(list, width, bank)?;
    push_convert(list, bank, narrow)
}

/// Adds the row of the element of these indices, and its bank where that is wanted.
fn push_spread(
    list: &mut OperationList,
    width: u8,
    narrow: u8,
    dims: &[Dim],
    indices: &[u64],
    banked: bool,
) -> Result<AimedRow, NoMemory>
    requires { AllByRecursion IsDim dims.now }
    ensures { IfOk result (λ a. IsSpreadOut width narrow dims.now indices.now banked
        list.old list.new a.row a.select) }
{
    let values = spread(list, width, dims, indices, banked)?;
    let row = push_or_zero(list, width, values.row)?;
    if !banked {
        return Ok(AimedRow { row, select: None });
    }
    let select = Some(push_select(list, width, narrow, values.bank)?);
    Ok(AimedRow { row, select })
}

/// Adds the row of an element of these indices, and its bank where the access can reach several.
fn aim_by_indices(
    list: &mut OperationList,
    old: &OldBlock<'_>,
    reach: &Reach,
    indices: &[BlockValue],
) -> Result<AimedRow, NoMemory>
    requires { IsProgramTable old.now.table.now }
    ensures { IfOk result (λ a. IsIndexAim (dims_at old.now.table.now reach.now.memory)
        indices.now (is_banked reach.now) list.old list.new a.row a.select) }
{
    let dims = dims_in(old.table, reach.memory);
    let width = bit_length(element_total(dims));
    let narrow = select_width(dims);
    let banked = reach.banks.len() != 1;
    match constant_place(dims, indices) {
        Some(place) => push_place(list, width, narrow, place, banked),
        None => {
            let values = values_of(old.alloc, indices)?;
            push_spread(list, width, narrow, dims, values.as_slice(), banked)
        }
    }
}

/// Adds a value as a number of one bit, if there is one: it is only waited for.
fn push_waited(list: &mut OperationList, value: Option<u64>) -> Result<Option<u64>, NoMemory>
    ensures { IfOk result (λ s. IsSummed list.new s (waited list.old value)) }
{
    match value {
        None => Ok(None),
        Some(value) => Ok(Some(push_convert(list, value, 1)?)),
    }
}

/// The same access of a row of a bank, which takes these values too.
fn aimed(
    old: &OldBlock<'_>,
    reach: &Reach,
    indices: Items<u64>,
    aim: AimedRow,
) -> Result<ApartReach, NoMemory>
    ensures { IfOk result (λ t. t ≡ aimed_reach reach.now indices aim.row aim.select) }
{
    let aimed = Reach {
        access: reach.access,
        memory: reach.memory,
        indices,
        steps: Items::new(old.alloc),
        banks: Items::from_vec(Vec::from_slice(old.alloc, reach.banks.as_slice())?),
        select: aim.select,
        row: Some(aim.row),
    };
    ApartReach::new(old.alloc, aimed)
}

/// The access of a row, which an access by a row stays.
fn aim_row(
    old: &OldBlock<'_>,
    known: &Renumbering,
    reach: &Reach,
    row: u64,
) -> Result<ApartReach, NoMemory>
    ensures { IfOk result
        (λ t. t ≡ row_aimed (around_seen old.now known.now) reach.now row) }
{
    let taken = known.taken(old.alloc, reach)?;
    let row = known.number(row);
    let select = known.maybe(reach.select);
    aimed(old, reach, taken, AimedRow { row, select })
}

/// Adds the row of an access by indices.
fn aim_indices(
    list: &mut OperationList,
    old: &OldBlock<'_>,
    known: &Renumbering,
    reach: &Reach,
    indices: &[BlockValue],
) -> Result<ApartReach, NoMemory>
    requires { IsProgramTable old.now.table.now }
    ensures { IfOk result (IsAimedByIndices (around_seen old.now known.now) reach.now indices.now
        list.old list.new) }
{
    let mut taken = known.taken(old.alloc, reach)?;
    if let Some(select) = push_waited(list, known.maybe(reach.select))? {
        taken.push(select)?;
    }
    let aim = aim_by_indices(list, old, reach, indices)?;
    aimed(old, reach, taken, aim)
}

/// Adds the row of an access. What it took before it still takes, so that it comes no earlier.
pub fn aim_reach(
    list: &mut OperationList,
    old: &OldBlock<'_>,
    known: &Renumbering,
    reach: &Reach,
    indices: &[BlockValue],
) -> Result<ApartReach, NoMemory>
    requires { IsProgramTable old.now.table.now }
    ensures { IfOk result (IsAimedReach (around_seen old.now known.now) reach.now reach.now.row
        indices.now list.old list.new) }
{
    match reach.row {
        Some(row) => aim_row(old, known, reach, row),
        None => aim_indices(list, old, known, reach, indices),
    }
}
