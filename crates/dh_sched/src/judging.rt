//! Whether a schedule is legal, judged block by block.

ghost use Rattle.std.specs.Prelude.{◌≡◌, length, IfOk};
ghost use Rattle.dh_plan.specs.Passes.{DecidesLegal};
ghost use Rattle.dh_plan.specs.SeenPlans.{plan_seen};
ghost use Rattle.dh_sched.specs.Sorts.{DecidesBlock};

use crate::chains::chains_are_kept;
use crate::counting::products_are_kept;
use crate::needs::{is_end, needs_are_met};
use dh_base::NoMemory;
use dh_plan::{Limits, Operation, Plan, Schedule};
use std::alloc::Global;

// Whether the clocks and the length of a block are legal.
fn is_legal_block(
    alloc: Global,
    limits: Limits,
    first: u64,
    operations: &[Operation],
    clocks: &[u128],
    block_length: u128,
) -> Result<bool, NoMemory>
    requires { length clocks.now ≡ length operations.now }
    ensures { DecidesBlock limits first operations.now clocks.now block_length result }
{
    if !is_end(operations, clocks, block_length) {
        return Ok(false);
    }
    if !needs_are_met(alloc, first, operations, clocks)? {
        return Ok(false);
    }
    if !products_are_kept(alloc, limits.multipliers, operations, clocks)? {
        return Ok(false);
    }
    chains_are_kept(alloc, limits.chain, first, operations, clocks)
}

/// Whether a schedule of a plan is legal under limits: whether it has a clock for each operation and a length for
/// each block, each operation stands where all is there that it takes, no clock exceeds a limit, and each block ends
/// with the clock in which its last value is there. Linear, but for n log n steps over multiplications that are
/// limited.
pub fn legal(
    alloc: Global,
    plan: &Plan,
    limits: Limits,
    schedule: &Schedule,
) -> Result<bool, NoMemory>
    ensures { IfOk result (λ answer. DecidesLegal (plan_seen plan.now) limits schedule.now answer) }
{
    let clocks = schedule.clock_of.as_slice();
    let lengths = schedule.length.as_slice();
    let blocks = plan.blocks.as_slice();
    if lengths.len() != blocks.len() {
        return Ok(false);
    }
    let mut first = 0;
    for (number, block) in blocks.iter().enumerate() {
        let operations = block.operations.as_slice();
        if clocks.len() - first < operations.len() {
            return Ok(false);
        }
        let end = first + operations.len();
        let own = &clocks[first..end];
        if !is_legal_block(
            alloc,
            limits,
            first as u64,
            operations,
            own,
            lengths[number],
        )? {
            return Ok(false);
        }
        first = end;
    }
    Ok(first == clocks.len())
}
