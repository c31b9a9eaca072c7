//! Where a plan begins: the state of its thread, and its registers.

ghost use Rattle.std.specs.Prelude.{◌≡◌, ◌+◌, ◌%◌, ◌^◌, ◌≤◌, replicate, slice_index, slice_set, IfOk};
ghost use Rattle.std.specs.List.{AllByRecursion};
ghost use Rattle.dh_value.specs.Words.{IsKind};
ghost use Rattle.dh_plan.specs.Blocks.{kind_at};
ghost use Rattle.dh_build.specs.ThreadBegins.{IsCountedUp, DecisionLeadsTo, LeavesThese, begun_by};

use dh_base::NoMemory;
use dh_plan::Decision;
use dh_value::{Kind, width};
use std::alloc::Global;

/// The value of a register, 0 where there is none.
fn value_at(registers: &[u64], register: u64) -> u64
    ensures { result ≡ slice_index registers.now register }
{
    match registers.get(register as usize) {
        Some(value) => *value,
        None => 0,
    }
}

/// The kind of a register, Bool where there is none.
fn kind_of_register(kinds: &[Kind], register: u64) -> Kind
    ensures { result ≡ kind_at kinds.now register }
{
    match kinds.get(register as usize) {
        Some(kind) => *kind,
        None => Kind::Bool,
    }
}

/// Gives a register a value, where it is there.
fn set_value(registers: &mut Vec<u64>, register: u64, value: u64)
    ensures { registers.new.items ≡ slice_set registers.old.items register value }
{
    let at = register as usize;
    if at < registers.len() {
        registers[at] = value;
    }
}

/// One more, modulo 2^width.
fn one_more(width: u8, number: u64) -> u64
    ensures { width ≤ 64 → result ≡ (number + 1) % 2 ^ width }
{
    let next = number.wrapping_add(1);
    if width < 64 {
        next % (1 << width)
    } else {
        next
    }
}

/// Has a counter be one more.
fn count_up(kinds: &[Kind], registers: &mut Vec<u64>, counter: u64)
    ensures { IsCountedUp kinds.now counter registers.old.items registers.new.items }
{
    let value = value_at(registers.as_slice(), counter);
    let next = one_more(width(kind_of_register(kinds, counter)), value);
    set_value(registers, counter, next);
}

/// The number of the state to which a decision of one thread leads by registers, which count on the way; `over` where
/// the thread ends.
#[tactic(auto, using(dh_control::proofs::DecisionForms::decisions_are))]
pub fn begin(decision: &Decision, kinds: &[Kind], over: u64, registers: &mut Vec<u64>) -> u64
    ensures state { DecisionLeadsTo kinds.now over decision.now registers.old.items result }
    ensures registers { LeavesThese kinds.now decision.now registers.old.items
        registers.new.items }
{
    match decision {
        Decision::Go { state } => *state,
        Decision::Test { flag, yes, no } => {
            if value_at(registers.as_slice(), *flag) == 1 {
                begin(yes, kinds, over, registers)
            } else {
                begin(no, kinds, over, registers)
            }
        }
        Decision::Count {
            counter,
            last,
            again,
            past,
        } => {
            if value_at(registers.as_slice(), *counter) == *last {
                set_value(registers, *counter, 0);
                begin(past, kinds, over, registers)
            } else {
                count_up(kinds, registers, *counter);
                begin(again, kinds, over, registers)
            }
        }
        Decision::Fork { .. } => over,
        Decision::Rest => over,
    }
}

/// So many zeros.
fn zeros(alloc: Global, count: usize) -> Result<Vec<u64>, NoMemory>
    ensures { IfOk result (λ all. all.items ≡ replicate count 0) }
{
    let mut all = Vec::new(alloc);
    for i in 0..count {
        all.push(0)?;
    }
    Ok(all)
}

/// Where the registers of a net stand first: no clock has passed, and the thread begins by this decision.
pub fn list_initials(
    alloc: Global,
    kinds: &[Kind],
    over: u64,
    first: &Decision,
) -> Result<Vec<u64>, NoMemory>
    requires kinds { AllByRecursion IsKind kinds.now }
    ensures { IfOk result (λ values. values.items ≡ begun_by kinds.now over first.now) }
{
    let mut registers = zeros(alloc, kinds.len())?;
    let state = begin(first, kinds, over, &mut registers);
    let mut values = Vec::from_slice(alloc, &[0, 0, 0, state])?;
    values.extend_from_slice(registers.as_slice())?;
    Ok(values)
}
