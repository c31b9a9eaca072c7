//! How many operators follow one another within a clock.

ghost use Rattle.std.specs.Prelude.{◌≡◌, ◌↔◌, ◌+◌, IsTrue, map, slice_index, length, IfOk};
ghost use Rattle.dh_plan.specs.LegalSchedules as definitions;
ghost use Rattle.dh_plan.specs.LegalSchedules.{greatest_number};
ghost use Rattle.dh_plan.specs.Ordered.{operation_takes};
ghost use Rattle.dh_sched.specs.Sorts.{AreShallow, KeepsChains};

use crate::kinds::is_operator;
use crate::needs::clock_at;
use crate::taking::note_taken;
use dh_base::NoMemory;
use dh_plan::Operation;
use std::alloc::Global;

// The depth of this place in a list, 0 where there is none.
fn depth_of(depths: &[u64], at: usize) -> u64
    ensures { result ≡ slice_index depths.now at }
{
    match depths.get(at) {
        Some(depth) => *depth,
        None => 0,
    }
}

// The depth of a value that an operation at a clock takes: 0 where it is of another clock.
fn depth_taken(first: u64, clock: u128, clocks: &[u128], depths: &[u64], number: u64) -> u64
    ensures { result ≡ definitions.depth_taken first clock clocks.now depths.now number }
{
    let at = number.saturating_sub(first) as usize;
    if clock_at(clocks, at) == clock {
        depth_of(depths, at)
    } else {
        0
    }
}

// The greatest depth of values that an operation at a clock takes.
fn deepest_taken(first: u64, clock: u128, clocks: &[u128], depths: &[u64], taken: &[u64]) -> u64
    ensures { result ≡ greatest_number (map (definitions.depth_taken first clock clocks.now depths.now)
        taken.now) }
{
    let mut deepest = 0;
    for number in taken {
        deepest = deepest.max(depth_taken(first, clock, clocks, depths, *number));
    }
    deepest
}

/// How many operators follow one another in a clock up to an operation that stands there and takes these values.
pub fn depth_at(
    first: u64,
    clock: u128,
    clocks: &[u128],
    depths: &[u64],
    operation: &Operation,
    taken: &[u64],
) -> u64
    requires shallow { AreShallow depths.now }
    requires taken { taken.now ≡ operation_takes operation.now }
    ensures { result ≡ definitions.depth_at first clock clocks.now depths.now operation.now }
{
    let deepest = deepest_taken(first, clock, clocks, depths, taken);
    if is_operator(&operation.form) {
        deepest + 1
    } else {
        deepest
    }
}

/// Whether no more operators follow one another than the limit allows, in a block with these clocks.
pub fn chains_are_kept(
    alloc: Global,
    limit: u32,
    first: u64,
    operations: &[Operation],
    clocks: &[u128],
) -> Result<bool, NoMemory>
    requires { length clocks.now ≡ length operations.now }
    ensures { IfOk result (λ kept. IsTrue kept
        ↔ KeepsChains limit first operations.now clocks.now) }
{
    if limit == 0 {
        return Ok(true);
    }
    let mut depths = Vec::new(alloc);
    let mut taken = Vec::new(alloc);
    for (i, operation) in operations.iter().enumerate() {
        note_taken(&mut taken, operation)?;
        let depth = depth_at(
            first,
            clocks[i],
            clocks,
            depths.as_slice(),
            operation,
            taken.as_slice(),
        );
        if depth > u64::from(limit) {
            return Ok(false);
        }
        depths.push(depth)?;
    }
    Ok(true)
}
