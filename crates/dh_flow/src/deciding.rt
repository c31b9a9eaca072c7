//! The ways of a graph: made, and made once more.

ghost use Rattle.std.specs.Prelude.{◌≡◌, IfOk};
ghost use Rattle.dh_flow.specs.ToldWays.{counted_told, cut_numbers, decision_told, entry_told, tested_told};

use crate::measuring::Entry;
use dh_base::NoMemory;
use dh_plan::Decision;
use std::alloc::Global;

/// A list of the same numbers.
fn same_numbers(alloc: Global, numbers: &[u64]) -> Result<Vec<u64>, NoMemory>
    ensures { IfOk result (λ v. v.items ≡ numbers.now) }
{
    let mut copy = Vec::new(alloc);
    copy.extend_from_slice(numbers)?;
    Ok(copy)
}

/// The same way once more.
#[tactic(auto, using(crate::proofs::ToldForms::decisions_are))]
pub fn same_way(alloc: Global, way: &Decision) -> Result<Decision, NoMemory>
    ensures { IfOk result (λ d. decision_told d ≡ decision_told way.now) }
{
    match way {
        Decision::Go { state } => Ok(Decision::Go { state: *state }),
        Decision::Test { flag, yes, no } => {
            let yes = same_way(alloc, yes)?;
            let no = same_way(alloc, no)?;
            tests(alloc, *flag, yes, no)
        }
        Decision::Count {
            counter,
            last,
            again,
            past,
        } => {
            let again = same_way(alloc, again)?;
            let past = same_way(alloc, past)?;
            counts(alloc, *counter, *last, again, past)
        }
        Decision::Fork { groups } => Ok(Decision::Fork {
            groups: same_numbers(alloc, groups.as_slice())?,
        }),
        Decision::Rest => Ok(Decision::Rest),
    }
}

/// The way by a flag.
#[tactic(auto, using(crate::proofs::ToldForms::decisions_are))]
pub fn tests(alloc: Global, flag: u64, yes: Decision, no: Decision) -> Result<Decision, NoMemory>
    ensures { IfOk result (λ d. decision_told d ≡ tested_told flag yes no) }
{
    let yes = Box::new(alloc, yes)?;
    let no = Box::new(alloc, no)?;
    Ok(Decision::Test { flag, yes, no })
}

/// The way by a counter.
#[tactic(auto, using(crate::proofs::ToldForms::decisions_are))]
pub fn counts(
    alloc: Global,
    counter: u64,
    last: u64,
    again: Decision,
    past: Decision,
) -> Result<Decision, NoMemory>
    ensures { IfOk result (λ d. decision_told d ≡ counted_told counter last again past) }
{
    let again = Box::new(alloc, again)?;
    let past = Box::new(alloc, past)?;
    Ok(Decision::Count {
        counter,
        last,
        again,
        past,
    })
}

/// So many numbers from this one on.
fn numbers(alloc: Global, first: u64, count: u64) -> Result<Vec<u64>, NoMemory>
    ensures { IfOk result (λ v. v.items ≡ cut_numbers first count) }
{
    let mut numbers = Vec::new(alloc);
    let mut next = first;
    for i in 0..count {
        numbers.push(next)?;
        next = next.saturating_add(1);
    }
    Ok(numbers)
}

/// The way into nodes that begin so, where their states and groups begin with these numbers; past them where they
/// do no block.
#[tactic(auto, using(crate::proofs::ToldForms::decisions_are))]
pub fn way_into(
    alloc: Global,
    entry: Entry,
    state: u64,
    group: u64,
    past: &Decision,
) -> Result<Decision, NoMemory>
    ensures { IfOk result (λ d. decision_told d ≡ entry_told entry state group past.now) }
{
    match entry {
        Entry::Nothing => same_way(alloc, past),
        Entry::State => Ok(Decision::Go { state }),
        Entry::Threads { nested, count } => Ok(Decision::Fork {
            groups: numbers(alloc, group.saturating_add(nested), count)?,
        }),
    }
}
