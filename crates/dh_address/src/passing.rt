//! The way of an access through its views: at each one the indices of the parent, and what is to be in range.

ghost use Rattle.std.specs.Prelude.{◌≡◌, [], IfOk, None};
ghost use Rattle.std.specs.List.{AllByRecursion};
ghost use Rattle.dh_tree.specs.Shapes.{IsDim};
ghost use Rattle.dh_tree.specs.ViewShapes.{IsViewMap};
ghost use Rattle.dh_address.specs.SeenAround.{IsReachPassed, IsPassedTo, IsRowPassed, around_seen};
ghost use Rattle.dh_address.specs.WaysMade.{IsIndexWay, moved_all, unit_factors, passed_by, step_passed, steps_passed, way};

use crate::dealing::deal_all;
use crate::moving::{move_all, ones_of};
use crate::operands::{BlockValue, Ranged, note_ranges, operand_of, operands_of};
use crate::ranging::{OldBlock, dims_in, row_count};
use crate::renumbering::Renumbering;
use dh_base::{Items, NoMemory};
use dh_plan::{Reach, ReachStep};
use dh_rows::OperationList;
use dh_tree::{ViewMap, ViewSort};
use std::alloc::Global;

/// What an access needs to be in range, and the indices of its memory; none where it is of a row.
#[derive(Drop)]
pub struct PassedIndices {
    /// What is to be in range.
    pub ranges: Items<Ranged>,
    /// The indices of the memory.
    pub indices: Items<BlockValue>,
}

/// Adds the indices of the parent of a view that moves, by these factors.
fn pass_moving(
    list: &mut OperationList,
    alloc: Global,
    view: &ViewMap,
    factors: &[u64],
    offsets: &[BlockValue],
    indices: &[BlockValue],
    ranges: &mut Items<Ranged>,
) -> Result<Items<BlockValue>, NoMemory>
    ensures { IfOk result (λ moved. IsIndexWay list.new ranges.new moved
        (moved_all view.now.parent.dims factors.now offsets.now indices.now
        (way list.old ranges.old []))) }
{
    let mut moved = Items::new(alloc);
    move_all(
        list,
        view.parent.dims.as_slice(),
        factors,
        offsets,
        indices,
        ranges,
        &mut moved,
    )?;
    Ok(moved)
}

/// Adds the indices of the parent of a shift.
fn pass_shift(
    list: &mut OperationList,
    alloc: Global,
    view: &ViewMap,
    offsets: &[BlockValue],
    indices: &[BlockValue],
    ranges: &mut Items<Ranged>,
) -> Result<Items<BlockValue>, NoMemory>
    ensures { IfOk result (λ moved. IsIndexWay list.new ranges.new moved
        (moved_all view.now.parent.dims (unit_factors view.now.parent.dims) offsets.now indices.now
        (way list.old ranges.old []))) }
{
    let factors = ones_of(alloc, view.parent.dims.as_slice())?;
    pass_moving(
        list,
        alloc,
        view,
        factors.as_slice(),
        offsets,
        indices,
        ranges,
    )
}

/// Adds the indices that these name in the parent of a view.
fn pass_view(
    list: &mut OperationList,
    alloc: Global,
    view: &ViewMap,
    offsets: &[BlockValue],
    indices: &[BlockValue],
    ranges: &mut Items<Ranged>,
) -> Result<Items<BlockValue>, NoMemory>
    requires { AllByRecursion IsDim view.now.shape.dims }
    ensures { IfOk result (λ inner. IsIndexWay list.new ranges.new inner
        (passed_by view.now.sort view.now offsets.now indices.now list.old ranges.old)) }
{
    match view.sort {
        ViewSort::Shrink => Ok(Items::from_vec(Vec::from_slice(alloc, indices)?)),
        ViewSort::Split => deal_all(
            list,
            alloc,
            view.shape.dims.as_slice(),
            view.parent.dims.as_slice(),
            indices,
        ),
        ViewSort::Suffix => pass_moving(
            list,
            alloc,
            view,
            view.by.as_slice(),
            offsets,
            indices,
            ranges,
        ),
        ViewSort::Shift => pass_shift(list, alloc, view, offsets, indices, ranges),
    }
}

/// Adds the indices behind one view of a way: they are to be within its own dimensions.
fn pass_step(
    list: &mut OperationList,
    old: &OldBlock<'_>,
    known: &Renumbering,
    step: &ReachStep,
    indices: Items<BlockValue>,
    ranges: &mut Items<Ranged>,
) -> Result<Items<BlockValue>, NoMemory>
    requires { AllByRecursion IsViewMap old.now.views.now }
    ensures { IfOk result (λ inner. IsIndexWay list.new ranges.new inner
        (step_passed (around_seen old.now known.now) step.now (way list.old ranges.old indices))) }
{
    let Some(view) = old.views.get(step.view as usize) else {
        return Ok(indices);
    };
    note_ranges(ranges, view.shape.dims.as_slice(), indices.as_slice())?;
    let offsets = operands_of(old, known, step.offsets.as_slice())?;
    pass_view(
        list,
        old.alloc,
        view,
        offsets.as_slice(),
        indices.as_slice(),
        ranges,
    )
}

/// Adds the indices behind all views of a way.
fn pass_steps(
    list: &mut OperationList,
    old: &OldBlock<'_>,
    known: &Renumbering,
    steps: &[ReachStep],
    indices: Items<BlockValue>,
    ranges: &mut Items<Ranged>,
) -> Result<Items<BlockValue>, NoMemory>
    requires { AllByRecursion IsViewMap old.now.views.now }
    ensures { IfOk result (λ inner. IsIndexWay list.new ranges.new inner
        (steps_passed (around_seen old.now known.now) steps.now
        (way list.old ranges.old indices))) }
{
    let mut inner = indices;
    for step in steps {
        inner = pass_step(list, old, known, step, inner, ranges)?;
    }
    Ok(inner)
}

/// What is to be in range of an access by a row.
fn pass_row(
    old: &OldBlock<'_>,
    known: &Renumbering,
    reach: &Reach,
    row: u64,
) -> Result<PassedIndices, NoMemory>
    ensures { IfOk result (IsRowPassed (around_seen old.now known.now) reach.now row) }
{
    let mut ranges = Items::new(old.alloc);
    ranges.push(Ranged {
        operand: operand_of(old, known, row),
        size: row_count(dims_in(old.table, reach.memory)),
    })?;
    Ok(PassedIndices {
        ranges,
        indices: Items::new(old.alloc),
    })
}

/// Adds the indices of the memory of an access by indices.
fn pass_indices(
    list: &mut OperationList,
    old: &OldBlock<'_>,
    known: &Renumbering,
    reach: &Reach,
) -> Result<PassedIndices, NoMemory>
    requires { AllByRecursion IsViewMap old.now.views.now }
    ensures { IfOk result (IsPassedTo (around_seen old.now known.now) reach.now None
        list.old list.new) }
{
    let mut ranges = Items::new(old.alloc);
    let named = operands_of(old, known, reach.indices.as_slice())?;
    let steps = reach.steps.as_slice();
    let indices = pass_steps(list, old, known, steps, named, &mut ranges)?;
    let dims = dims_in(old.table, reach.memory);
    note_ranges(&mut ranges, dims, indices.as_slice())?;
    Ok(PassedIndices { ranges, indices })
}

/// Adds what an access needs before its tests.
pub fn pass_reach(
    list: &mut OperationList,
    old: &OldBlock<'_>,
    known: &Renumbering,
    reach: &Reach,
) -> Result<PassedIndices, NoMemory>
    requires { AllByRecursion IsViewMap old.now.views.now }
    ensures { IfOk result (IsReachPassed (around_seen old.now known.now) reach.now
        list.old list.new) }
{
    match reach.row {
        Some(row) => pass_row(old, known, reach, row),
        None => pass_indices(list, old, known, reach),
    }
}
