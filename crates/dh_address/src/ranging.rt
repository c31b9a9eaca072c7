//! Tests whether accesses are in range: as a guard, or as checks.

ghost use Rattle.std.specs.Prelude.{◌≡◌, ◌%◌, ◌^◌, IfOk, OnOk};
ghost use Rattle.dh_tree.specs.Elements.{banks_of, dims_at, rows_of};
ghost use Rattle.dh_tree.specs.Tables.{elements_of};
ghost use Rattle.dh_rows.specs.MadeOperations.{IsSummed};
ghost use Rattle.dh_address.specs.Pieces.{AreChecked, IsGuarded, IsRangeTested, both_made, check_made};
ghost use Rattle.dh_address.specs.SeenAround.{IsCheckedOne, IsGuardedOne};

use crate::literals::known_below;
use crate::numbers::quotient;
use crate::operands::Ranged;
use dh_base::NoMemory;
use dh_plan::{Operation, OperationForm};
use dh_rows::{OperationList, push_compute, push_test};
use dh_tree::{Dim, MemEntry, ViewMap};
use dh_value::Op;
use std::alloc::Global;

/// A block of the old plan, and what there is around it.
#[derive(Clone, Copy)]
pub struct OldBlock<'a> {
    /// Where lists are made.
    pub alloc: Global,
    /// The memories.
    pub table: &'a [MemEntry],
    /// The views.
    pub views: &'a [ViewMap],
    /// The block's operations.
    pub operations: &'a [Operation],
    /// Whether one of them takes the value of a probe.
    pub probed: bool,
}

/// The dimensions of a memory, none where there is no such memory.
pub fn dims_in(table: &[MemEntry], memory: u32) -> &[Dim]
    ensures { result.now ≡ dims_at table.now memory }
{
    match table.get(memory as usize) {
        Some(entry) => entry.shape.dims.as_slice(),
        None => &[],
    }
}

/// The rows of a bank. Numbers wrap.
pub fn row_count(dims: &[Dim]) -> u64
    ensures { result ≡ rows_of dims.now % 2 ^ 64 }
{
    let mut count = 1u64;
    for dim in dims {
        count = count.wrapping_mul(quotient(dim.size, dim.banks));
    }
    count
}

/// The elements of a memory. Numbers wrap.
pub fn element_total(dims: &[Dim]) -> u64
    ensures { result ≡ elements_of dims.now % 2 ^ 64 }
{
    let mut count = 1u64;
    for dim in dims {
        count = count.wrapping_mul(dim.size);
    }
    count
}

/// The banks of a memory. Numbers wrap.
pub fn bank_total(dims: &[Dim]) -> u64
    ensures { result ≡ banks_of dims.now % 2 ^ 64 }
{
    let mut count = 1u64;
    for dim in dims {
        count = count.wrapping_mul(dim.banks);
    }
    count
}

/// Adds whether a value is from 0 on and below a size; None where it always is.
fn test_value(list: &mut OperationList, range: Ranged) -> Result<Option<u64>, NoMemory>
    ensures { IfOk result (λ t. IsRangeTested range list.old list.new t) }
{
    match known_below(range.operand.literal, range.size) {
        Some(_) => Ok(None),
        None => push_test(list, range.operand.kind, range.operand.value, range.size),
    }
}

/// Adds that two values hold, of which either may lack and then does.
fn push_both(
    list: &mut OperationList,
    guard: Option<u64>,
    test: Option<u64>,
) -> Result<Option<u64>, NoMemory>
    ensures { IfOk result (λ s. IsSummed list.new s (both_made list.old guard test)) }
{
    match test {
        None => Ok(guard),
        Some(test) => match guard {
            None => Ok(Some(test)),
            Some(guard) => Ok(Some(push_compute(list, Op::Both, guard, test)?)),
        },
    }
}

/// Adds that both hold: a guard that may lack, and that a value is in range.
fn guard_value(
    list: &mut OperationList,
    guard: Option<u64>,
    range: Ranged,
) -> Result<Option<u64>, NoMemory>
    ensures { IfOk result (IsGuardedOne guard range list.old list.new) }
{
    let test = test_value(list, range)?;
    push_both(list, guard, test)
}

/// Adds that a guard holds, which may lack, and that values are in range.
pub fn guard_ranges(
    list: &mut OperationList,
    guard: Option<u64>,
    ranges: &[Ranged],
) -> Result<Option<u64>, NoMemory>
    ensures { IfOk result (IsGuarded guard ranges.now list.old list.new) }
{
    let mut on = guard;
    for range in ranges {
        on = guard_value(list, on, *range)?;
    }
    Ok(on)
}

/// Adds a check under a guard, if there is a test.
fn push_check(
    list: &mut OperationList,
    guard: Option<u64>,
    fault: u32,
    test: Option<u64>,
) -> Result<(), NoMemory>
    ensures { OnOk result (list.new ≡ check_made list.old guard fault test) }
{
    if let Some(ok) = test {
        list.push(guard, OperationForm::Check { ok, fault })?;
    }
    Ok(())
}

/// Adds a check that a value is in range, where it may not be.
fn check_value(
    list: &mut OperationList,
    guard: Option<u64>,
    fault: u32,
    range: Ranged,
) -> Result<(), NoMemory>
    ensures { OnOk result (IsCheckedOne guard fault range list.old list.new) }
{
    let test = test_value(list, range)?;
    push_check(list, guard, fault, test)
}

/// Adds checks that values are in range.
pub fn check_ranges(
    list: &mut OperationList,
    guard: Option<u64>,
    fault: u32,
    ranges: &[Ranged],
) -> Result<(), NoMemory>
    ensures { OnOk result (AreChecked guard fault ranges.now list.old list.new) }
{
    for range in ranges {
        check_value(list, guard, fault, *range)?;
    }
    Ok(())
}
