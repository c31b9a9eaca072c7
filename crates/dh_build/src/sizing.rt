//! What a net takes of a schedule: clocks and lengths as numbers of 64 bits, and the widths of its registers.

ghost use Rattle.std.specs.Prelude.{◌≡◌, ◌<◌, ◌≤◌, ◌∷◌, ◌++◌, ◌^◌, [], map, IfOk};
ghost use Rattle.std.specs.List.{AllByRecursion};
ghost use Rattle.dh_plan.specs.LegalSchedules.{greatest_number};
ghost use Rattle.dh_plan.specs.SeenPlans.{plan_seen};
ghost use Rattle.dh_value.specs.Words.{width_of};
ghost use Rattle.dh_build.specs.BuiltPlans.{AreSizesOf, IsScheduled, timing_of};

use crate::building::Sizes;
use dh_base::{Items, NoMemory};
use dh_net::row_width;
use dh_plan::Plan;
use dh_value::{Kind, width};
use std::alloc::Global;

/// The same numbers.
fn copied(alloc: Global, numbers: &[u64]) -> Result<Items<u64>, NoMemory>
    ensures { IfOk result (λ all. all ≡ numbers.now) }
{
    let all = Vec::from_slice(alloc, numbers)?;
    Ok(Items::from_vec(all))
}

/// The greatest of numbers, 0 of none.
pub fn greatest(numbers: &[u64]) -> u64
    ensures is { result ≡ greatest_number numbers.now }
    ensures all { AllByRecursion (λ n. n ≤ result) numbers.now }
{
    let mut most = 0;
    for number in numbers {
        most = most.max(*number);
    }
    most
}

/// The widths of kinds.
pub fn list_widths(alloc: Global, kinds: &[Kind]) -> Result<Items<u8>, NoMemory>
    ensures { IfOk result (λ widths. widths ≡ map width_of kinds.now) }
{
    let mut widths = Items::new(alloc);
    for kind in kinds {
        widths.push(width(*kind))?;
    }
    Ok(widths)
}

/// The widths of a net's registers: of the clock of the step, the tick, the fault, the state, and those of the plan.
pub fn all_widths(
    alloc: Global,
    clock: u8,
    state: u8,
    further: &[u8],
) -> Result<Items<u8>, NoMemory>
    ensures { IfOk result
        (λ widths. widths ≡ clock ∷ 1 ∷ 32 ∷ state ∷ further.now) }
{
    let mut widths = Vec::from_slice(alloc, &[clock, 1, 32, state])?;
    widths.extend_from_slice(further)?;
    Ok(Items::from_vec(widths))
}

/// The sizes of the net of a plan with so many states, by the clocks of its operations and the lengths of its blocks.
pub fn size_up(
    alloc: Global,
    plan: &Plan,
    states: u64,
    clocks: &[u64],
    lengths: &[u64],
) -> Result<Sizes, NoMemory>
    requires few { states < 2 ^ 63 }
    requires times { IsScheduled (plan_seen plan.now) (timing_of clocks.now lengths.now) }
    ensures { IfOk result (λ sizes. AreSizesOf (plan_seen plan.now) states
        (timing_of clocks.now lengths.now) sizes) }
{
    let longest = greatest(lengths);
    let clocks = copied(alloc, clocks)?;
    let lengths = copied(alloc, lengths)?;
    let widths = list_widths(alloc, plan.registers.as_slice())?;
    Ok(Sizes {
        clocks,
        lengths,
        longest,
        clock_width: row_width(longest),
        state_width: row_width(states + 1),
        widths,
    })
}
