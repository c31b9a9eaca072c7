//! Schedules without limits in words of 64 bits: no clock is greater than there are operations.

ghost use Rattle.std.specs.Prelude.{◌≡◌, ◌<◌, ◌^◌, length, IfOk};
ghost use Rattle.dh_plan.specs.LegalSchedules.{IsLeastSchedule};
ghost use Rattle.dh_plan.specs.Passes.{timing_seen};
ghost use Rattle.dh_plan.specs.ScheduleLaws.{without_limits};
ghost use Rattle.dh_plan.specs.SeenPlans.{plan_seen};
ghost use Rattle.dh_backend.specs.NetParts.{AreTimesOf};
ghost use Rattle.dh_backend.specs.SuitedPlans.{low_words};

use dh_base::{Items, NoMemory};
use dh_plan::{Plan, Schedule};
use std::alloc::Global;

/// When each operation is done, in clocks of its step from 0, and how long each block is.
#[derive(Drop)]
pub struct BlockTimes {
    /// A clock for each operation of the plan.
    pub clocks: Items<u64>,
    /// A length in clocks for each block.
    pub lengths: Items<u64>,
}

// One more than the greatest number of 64 bits.
const WORD: u128 = 18446744073709551616;

// The lowest 64 bits of numbers.
fn narrow(alloc: Global, numbers: &[u128]) -> Result<Items<u64>, NoMemory>
    ensures low { IfOk result (λ words. words ≡ low_words numbers.now) }
    ensures few { IfOk result (λ words. length words < 2 ^ 63) }
{
    let mut words = Vec::with_capacity(alloc, numbers.len())?;
    for number in numbers {
        words.push((*number % WORD) as u64)?;
    }
    Ok(Items::from_vec(words))
}

/// A least schedule without limits, in words of 64 bits.
///
/// # Errors
///
/// `NoMemory` where an allocation was refused.
pub fn times_of(alloc: Global, plan: &Plan, schedule: &Schedule) -> Result<BlockTimes, NoMemory>
    requires { IsLeastSchedule (plan_seen plan.now) without_limits (timing_seen schedule.now) }
    ensures { IfOk result (AreTimesOf (timing_seen schedule.now)) }
{
    let clocks = narrow(alloc, schedule.clock_of.as_slice())?;
    let lengths = narrow(alloc, schedule.length.as_slice())?;
    Ok(BlockTimes { clocks, lengths })
}
