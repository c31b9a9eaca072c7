//! The schedule of a plan: each operation in order at the least clock at which it may stand.

ghost use Rattle.std.specs.Prelude.{◌≡◌, ◌+◌, ◌*◌, ◌<◌, ◌≤◌, ◌^◌, [], ◌∷◌, ◌++◌, length, IfOk, OnOk};
ghost use Rattle.dh_plan.specs.LegalSchedules as definitions;
ghost use Rattle.dh_plan.specs.LegalSchedules.{IsLeastSchedule, IsWithin};
ghost use Rattle.dh_plan.specs.Ordered.{operation_takes, IsOrdered, AreOrdered};
ghost use Rattle.dh_plan.specs.Passes.{timing_seen};
ghost use Rattle.dh_plan.specs.SeenPlans.{plan_seen};
ghost use Rattle.dh_sched.specs.Sorts.{AreShallow, AreSmallClocks};
ghost use Rattle.dh_sched.specs.LeastBlocks.{Unchains, IsLeastClock, AreScheduled, AreDepths, AreCounts, NotesDepth};

use crate::chains::depth_at;
use crate::filling::place_from;
use crate::needs::{block_length, needed_clock};
use crate::taking::note_taken;
use dh_base::{Items, NoMemory};
use dh_plan::{Limits, Operation, Plan, Schedule};
use std::alloc::Global;

// The clock from which on all is there that an operation takes, or the next one, where its chain would be too long.
fn unchained(
    limit: u32,
    first: u64,
    clocks: &[u128],
    depths: &[u64],
    operation: &Operation,
    taken: &[u64],
    needed: u128,
) -> u128
    requires small { needed + 1 < 2 ^ 128 }
    requires shallow { AreShallow depths.now }
    requires taken { taken.now ≡ operation_takes operation.now }
    ensures { Unchains limit
        (definitions.depth_at first needed clocks.now depths.now operation.now)
        needed result }
{
    if limit == 0 {
        return needed;
    }
    let depth = depth_at(first, needed, clocks, depths, operation, taken);
    if depth > u64::from(limit) {
        needed + 1
    } else {
        needed
    }
}

// Notes the depth of an operation at its clock, where a limit asks for it.
fn note_depth(
    limit: u32,
    first: u64,
    clock: u128,
    clocks: &[u128],
    depths: &mut Vec<u64>,
    operation: &Operation,
    taken: &[u64],
) -> Result<(), NoMemory>
    requires shallow { AreShallow depths.old.items }
    requires taken { taken.now ≡ operation_takes operation.now }
    requires within { IsWithin limit
        (definitions.depth_at first clock clocks.now depths.old.items operation.now) }
    ensures shallow { OnOk result (AreShallow depths.new.items) }
    ensures unlimited { OnOk result (limit ≡ 0 → depths.new.items ≡ depths.old.items) }
    ensures limited { OnOk result (NotesDepth limit first clock clocks.now operation.now
        depths.old.items depths.new.items) }
{
    if limit == 0 {
        return Ok(());
    }
    let depth = depth_at(first, clock, clocks, depths.as_slice(), operation, taken);
    depths.push(depth)?;
    Ok(())
}

// The least clock at which an operation may stand behind those before it; counts it there.
fn least_clock(
    limits: Limits,
    first: u64,
    before: &[Operation],
    clocks: &[u128],
    depths: &[u64],
    counts: &mut Vec<u32>,
    ways: &mut Vec<usize>,
    operation: &Operation,
    taken: &[u64],
) -> Result<u128, NoMemory>
    requires room { 2 * length before.now + 4 < 2 ^ 64 }
    requires taken { taken.now ≡ operation_takes operation.now }
    requires scheduled { AreScheduled limits first before.now clocks.now }
    requires depths { AreDepths limits.chain first before.now clocks.now depths.now }
    requires counts { AreCounts limits.multipliers before.now clocks.now counts.old.items
        ways.old.items }
    ensures least { IfOk result (λ clock. IsLeastClock limits first before.now clocks.now operation.now
        clock) }
    ensures low { IfOk result (λ clock. clock ≤ 2 * length before.now + 2) }
    ensures counts { IfOk result (λ clock. AreCounts limits.multipliers
        (before.now ++ operation.now ∷ []) (clocks.now ++ clock ∷ []) counts.new.items
        ways.new.items) }
{
    let needed = needed_clock(first, before, clocks, taken);
    let start = unchained(
        limits.chain,
        first,
        clocks,
        depths,
        operation,
        taken,
        needed,
    );
    place_from(limits.multipliers, counts, ways, &operation.form, start)
}

// The clocks of a block's operations.
fn block_clocks(
    alloc: Global,
    limits: Limits,
    first: u64,
    operations: &[Operation],
) -> Result<Vec<u128>, NoMemory>
    requires { IsOrdered first operations.now }
    ensures scheduled { IfOk result (λ v. AreScheduled limits first operations.now v.items) }
    ensures small { IfOk result (λ v. AreSmallClocks v.items) }
{
    let mut clocks = Vec::with_capacity(alloc, operations.len())?;
    let mut depths = Vec::new(alloc);
    let mut counts = Vec::new(alloc);
    let mut ways = Vec::new(alloc);
    let mut taken = Vec::new(alloc);
    for (i, operation) in operations.iter().enumerate() {
        note_taken(&mut taken, operation)?;
        let clock = least_clock(
            limits,
            first,
            &operations[..i],
            clocks.as_slice(),
            depths.as_slice(),
            &mut counts,
            &mut ways,
            operation,
            taken.as_slice(),
        )?;
        note_depth(
            limits.chain,
            first,
            clock,
            clocks.as_slice(),
            &mut depths,
            operation,
            taken.as_slice(),
        )?;
        clocks.push(clock)?;
    }
    Ok(clocks)
}

/// The schedule of a plan in which each operation stands at the least clock that what it takes, the limits and the
/// operations before it allow. Linear in the plan's size; under a limit on multiplications O(n log n) at worst.
pub fn schedule(alloc: Global, plan: &Plan, limits: Limits) -> Result<Schedule, NoMemory>
    requires { AreOrdered (plan_seen plan.now) }
    ensures { IfOk result (λ s. IsLeastSchedule (plan_seen plan.now) limits (timing_seen s)) }
{
    let blocks = plan.blocks.as_slice();
    let mut clocks = Vec::with_capacity(alloc, plan.operation_count())?;
    let mut lengths = Vec::with_capacity(alloc, blocks.len())?;
    for block in blocks {
        let operations = block.operations.as_slice();
        let own = block_clocks(alloc, limits, clocks.len() as u64, operations)?;
        lengths.push(block_length(operations, own.as_slice()))?;
        clocks.extend_from_slice(own.as_slice())?;
    }
    Ok(Schedule {
        clock_of: Items::from_vec(clocks),
        length: Items::from_vec(lengths),
    })
}
