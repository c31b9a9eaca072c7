//! When what an operation takes is there.

ghost use Rattle.std.specs.Prelude.{◌≡◌, ◌↔◌, ◌+◌, ◌≤◌, IsTrue, suc, slice_index, length, IfOk};
ghost use Rattle.dh_plan.specs.LegalSchedules as definitions;
ghost use Rattle.dh_plan.specs.LegalSchedules.{last_clock, NeedsAreMet};
ghost use Rattle.dh_sched.specs.Sorts.{all_there_at, AreSmallClocks, IsLater};

use crate::kinds::{is_read, there_at};
use crate::taking::note_taken;
use dh_base::NoMemory;
use dh_plan::Operation;
use std::alloc::Global;

/// The clock of this place in a list, 0 where there is none.
pub fn clock_at(clocks: &[u128], at: usize) -> u128
    ensures { result ≡ slice_index clocks.now at }
{
    match clocks.get(at) {
        Some(clock) => *clock,
        None => 0,
    }
}

// Whether a value is there at a clock.
fn is_there(first: u64, operations: &[Operation], clocks: &[u128], number: u64, own: u128) -> bool
    ensures { IsTrue result
        ↔ (definitions.value_clock first operations.now clocks.now number ≤ own) }
{
    let at = number.saturating_sub(first) as usize;
    let clock = clock_at(clocks, at);
    match operations.get(at) {
        Some(operation) => is_there_of(operation, clock, own),
        None => clock <= own,
    }
}

// Whether the value of an operation that stands at a clock is there at another.
fn is_there_of(operation: &Operation, clock: u128, own: u128) -> bool
    ensures { IsTrue result ↔ (definitions.there_at operation.now.form clock ≤ own) }
{
    if is_read(&operation.form) {
        clock < own
    } else {
        clock <= own
    }
}

// Whether all of these values are there at a clock.
fn are_there(
    first: u64,
    operations: &[Operation],
    clocks: &[u128],
    taken: &[u64],
    own: u128,
) -> bool
    ensures { IsTrue result ↔ (all_there_at first operations.now clocks.now taken.now ≤ own) }
{
    for number in taken {
        if !is_there(first, operations, clocks, *number, own) {
            return false;
        }
    }
    true
}

/// Whether each operation of a block stands where all is there that it takes.
pub fn needs_are_met(
    alloc: Global,
    first: u64,
    operations: &[Operation],
    clocks: &[u128],
) -> Result<bool, NoMemory>
    requires { length clocks.now ≡ length operations.now }
    ensures { IfOk result (λ met. IsTrue met ↔ NeedsAreMet first operations.now clocks.now) }
{
    let mut taken = Vec::new(alloc);
    for (i, operation) in operations.iter().enumerate() {
        note_taken(&mut taken, operation)?;
        if !are_there(first, operations, clocks, taken.as_slice(), clocks[i]) {
            return Ok(false);
        }
    }
    Ok(true)
}

// Joins the greatest clock so far with that at which a value is there; None where that is not before the length.
fn later(operation: &Operation, clock: u128, block_length: u128, last: u128) -> Option<u128>
    requires { 1 ≤ block_length }
    ensures { IsLater operation.now clock block_length last result }
{
    if !is_there_of(operation, clock, block_length - 1) {
        return None;
    }
    let there = if is_read(&operation.form) {
        clock + 1
    } else {
        clock
    };
    Some(last.max(there))
}

/// Whether a block of this length ends with the clock in which its last value is there.
pub fn is_end(operations: &[Operation], clocks: &[u128], block_length: u128) -> bool
    requires { length clocks.now ≡ length operations.now }
    ensures { IsTrue result ↔ (block_length ≡ suc (last_clock operations.now clocks.now)) }
{
    if block_length == 0 {
        return false;
    }
    let mut last = 0;
    for (i, operation) in operations.iter().enumerate() {
        match later(operation, clocks[i], block_length, last) {
            Some(greatest) => last = greatest,
            None => return false,
        }
    }
    last == block_length - 1
}

// When the value of this number is there.
fn value_clock(first: u64, operations: &[Operation], clocks: &[u128], number: u64) -> u128
    requires { AreSmallClocks clocks.now }
    ensures { result ≡ definitions.value_clock first operations.now clocks.now number }
{
    let at = number.saturating_sub(first) as usize;
    let clock = clock_at(clocks, at);
    match operations.get(at) {
        Some(operation) => there_at(&operation.form, clock),
        None => clock,
    }
}

/// The clock from which on all of these values are there.
pub fn needed_clock(first: u64, operations: &[Operation], clocks: &[u128], taken: &[u64]) -> u128
    requires { AreSmallClocks clocks.now }
    ensures { result ≡ all_there_at first operations.now clocks.now taken.now }
{
    let mut needed = 0;
    for number in taken {
        needed = needed.max(value_clock(first, operations, clocks, *number));
    }
    needed
}

/// The length of a block with these clocks.
pub fn block_length(operations: &[Operation], clocks: &[u128]) -> u128
    requires small { AreSmallClocks clocks.now }
    requires long { length clocks.now ≡ length operations.now }
    ensures { result ≡ suc (last_clock operations.now clocks.now) }
{
    let mut last = 0;
    for (i, operation) in operations.iter().enumerate() {
        last = last.max(there_at(&operation.form, clocks[i]));
    }
    last + 1
}
