//! The pass as a whole.

ghost use Rattle.std.specs.Prelude.{IfOk};
ghost use Rattle.std.specs.List.{AllByRecursion};
ghost use Rattle.dh_tree.specs.Shapes.{IsProgramTable};
ghost use Rattle.dh_tree.specs.ViewShapes.{IsViewMap};
ghost use Rattle.dh_plan.specs.DoneProgram.{IsAddressingOf};
ghost use Rattle.dh_plan.specs.SeenPlans.{plan_seen};
ghost use Rattle.dh_plan.specs.SoundPlans.{IsSound};
ghost use Rattle.dh_address.specs.Images.{IsImage};
ghost use Rattle.dh_address.specs.SeenPlan.{AreImages};

use crate::blocks::push_block;
use crate::cutting::cut_blocks;
use crate::probing::any_takes_probe;
use crate::ranging::OldBlock;
use dh_base::{Items, NoMemory};
use dh_plan::{Operation, OperationForm, Plan, PlanBlock};
use dh_rows::OperationList;
use std::alloc::Global;

/// Mostly an access comes with at most so many operations for each view on its way and for its memory, so that the list
/// of all operations is not moved while it grows; room that is not used is never touched.
const OPERATIONS_FOR_A_VIEW: usize = 8;

/// The most operations for which there is room at once. They take less than 32 MiB, so that malloc gives the list pages
/// that others gave back; and where accesses through many views have literal indices, few operations come in their place.
const MOST_ROOM: usize = 600_000;

/// Room for what comes in place of an operation.
fn room_for(operation: &Operation) -> usize {
    let access = match &operation.form {
        OperationForm::Probe { access, .. } => access,
        OperationForm::Read { access } => access,
        OperationForm::Write { access, .. } => access,
        OperationForm::Constant { .. }
        | OperationForm::Old { .. }
        | OperationForm::Compute { .. }
        | OperationForm::Convert { .. }
        | OperationForm::Select { .. }
        | OperationForm::Check { .. }
        | OperationForm::Set { .. } => return 1,
    };
    let views = access.content().steps.len();
    views
        .saturating_add(1)
        .saturating_mul(OPERATIONS_FOR_A_VIEW)
}

/// Room for what comes in place of all operations of a plan.
fn room_of(plan: &Plan) -> usize {
    let mut room = 0usize;
    for block in plan.blocks.as_slice() {
        for operation in block.operations.as_slice() {
            room = room.saturating_add(room_for(operation));
        }
    }
    room.min(MOST_ROOM)
}

/// The blocks of the plan with banks and rows in place of indices.
fn address_blocks(alloc: Global, plan: &Plan) -> Result<Items<PlanBlock>, NoMemory>
    requires table { IsProgramTable plan.now.table }
    requires views { AllByRecursion IsViewMap plan.now.views }
    ensures { IfOk result (AreImages (plan_seen plan.now)) }
{
    let mut list = OperationList::with_room(alloc, room_of(plan))?;
    let mut starts = Vec::new(alloc);
    let mut first = 0u128;
    for block in plan.blocks.as_slice() {
        let operations = block.operations.as_slice();
        let old = OldBlock {
            alloc,
            table: plan.table.as_slice(),
            views: plan.views.as_slice(),
            operations,
            probed: any_takes_probe(operations, first),
        };
        starts.push(list.len())?;
        push_block(&mut list, &old, plan.registers.as_slice(), first)?;
        first += operations.len() as u128;
    }
    cut_blocks(alloc, list.into_vec(), starts.as_slice())
}

/// The plan with banks and rows in place of indices, made block by block; all else of it is kept as it is.
fn made_of_pieces(alloc: Global, plan: Plan) -> Result<Plan, NoMemory>
    requires table { IsProgramTable plan.table }
    requires views { AllByRecursion IsViewMap plan.views }
    ensures { IfOk result (λ q. IsImage (plan_seen plan) (plan_seen q)) }
{
    let made = address_blocks(alloc, &plan)?;
    let Plan {
        table,
        views: _views,
        registers,
        blocks: _blocks,
        body,
        meets,
        faults,
    } = plan;
    Ok(Plan {
        table,
        views: Items::new(alloc),
        registers,
        blocks: made,
        body,
        meets,
        faults,
    })
}

/// The plan with banks and rows in place of indices and views: it does the same, and each read or write is done only
/// where it is in range, at each view on its way too.
///
/// # Errors
///
/// `NoMemory` where an allocation was refused.
pub fn addresses(alloc: Global, plan: Plan) -> Result<Plan, NoMemory>
    requires { IsSound (plan_seen plan) }
    ensures { IfOk result (λ q. IsAddressingOf (plan_seen plan) (plan_seen q)) }
{
    made_of_pieces(alloc, plan)
}
