//! Guards of the arms of an `if`: what is done where a guard holds and a test comes out so.

ghost use Rattle.std.specs.Prelude.{IfOk, length, not, true, false};
ghost use Rattle.dh_value.specs.Operations.{is_true};
ghost use Rattle.dh_expressions.specs.Drafted.{Gives, word_shown};
ghost use Rattle.dh_value.specs.Operations.{truth as truth_of};
ghost use Rattle.dh_commands.specs.Choosing.{MakesGuard, MakesGuards};
ghost use Rattle.dh_commands.specs.MadeCommands.{MadeArmGuards, MadeGuard, MadeNot};

use dh_base::NoMemory;
use dh_code::truth;
use dh_expressions::{Draft, guard_at, push_compute, push_constant, push_select};
use dh_value::Op;
use std::alloc::Global;

/// Adds the guard of what is done where a guard holds and a truth.
fn push_both(draft: &mut Draft, guard: Option<u64>, truth: u64) -> Result<u64, NoMemory>
    ensures means { IfOk result (λ n. MakesGuard draft.old draft.new guard (λ x. is_true (word_shown x
        truth)) n) }
    ensures made { IfOk result (λ n. MadeGuard guard truth draft.old draft.new n) }
{
    match guard {
        Some(guard) => push_compute(draft, Op::Both, guard, truth),
        None => Ok(truth),
    }
}

/// Adds the truth that another is not true.
fn push_not(draft: &mut Draft, test: u64) -> Result<u64, NoMemory>
    ensures means { IfOk result (λ n. Gives draft.old draft.new n (λ x. truth_of (not (is_true
        (word_shown x test))))) }
    ensures made { IfOk result (λ n. MadeNot test draft.old draft.new n) }
{
    let no = push_constant(draft, truth(false))?;
    let yes = push_constant(draft, truth(true))?;
    push_select(draft, test, no, yes)
}

/// Adds the guards of the arm that is done where the tests hold.
fn guards_chosen(
    alloc: Global,
    draft: &mut Draft,
    guards: &[Option<u64>],
    tests: &[u64],
) -> Result<Vec<Option<u64>>, NoMemory>
    ensures means { IfOk result (λ arm. MakesGuards draft.old draft.new guards.now tests.now true
        (length tests.now) arm.items) }
    ensures made { IfOk result (λ arm. MadeArmGuards true guards.now tests.now (length tests.now)
        draft.old draft.new arm.items) }
{
    let mut all = Vec::new(alloc);
    for i in 0..tests.len() {
        let guard = guard_at(guards, i as u64);
        let made = push_both(draft, guard, tests[i])?;
        all.push(Some(made))?;
    }
    Ok(all)
}

/// Adds those of the arm that is done where they do not.
fn guards_other(
    alloc: Global,
    draft: &mut Draft,
    guards: &[Option<u64>],
    tests: &[u64],
) -> Result<Vec<Option<u64>>, NoMemory>
    ensures means { IfOk result (λ arm. MakesGuards draft.old draft.new guards.now tests.now false
        (length tests.now) arm.items) }
    ensures made { IfOk result (λ arm. MadeArmGuards false guards.now tests.now (length tests.now)
        draft.old draft.new arm.items) }
{
    let mut all = Vec::new(alloc);
    for i in 0..tests.len() {
        let guard = guard_at(guards, i as u64);
        let fails = push_not(draft, tests[i])?;
        let made = push_both(draft, guard, fails)?;
        all.push(Some(made))?;
    }
    Ok(all)
}

/// Adds those of an arm that is done where the tests come out so.
pub fn guards_of(
    alloc: Global,
    draft: &mut Draft,
    guards: &[Option<u64>],
    tests: &[u64],
    holds: bool,
) -> Result<Vec<Option<u64>>, NoMemory>
    ensures means { IfOk result (λ arm. MakesGuards draft.old draft.new guards.now tests.now holds
        (length tests.now) arm.items) }
    ensures made { IfOk result (λ arm. MadeArmGuards holds guards.now tests.now (length tests.now)
        draft.old draft.new arm.items) }
{
    if holds {
        guards_chosen(alloc, draft, guards, tests)
    } else {
        guards_other(alloc, draft, guards, tests)
    }
}
