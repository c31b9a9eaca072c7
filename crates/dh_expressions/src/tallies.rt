//! How the copies of an access are counted, path by path: the place of each among those on its banks.

ghost use Rattle.std.specs.Prelude.{◌≡◌, ◌==◌, [], if◌then◌else◌, IfOk, OnOk};
ghost use Rattle.dh_events.specs.Tables.{table_at};
ghost use Rattle.dh_expressions.specs.Counting.{PlacesNextCopy, numbers_with, tally_in, tally_with};

use crate::kinds::narrow;
use dh_base::NoMemory;
use dh_events::{get_at, set_at};

/// What is counted of the paths so far, which go by groups, one behind the other.
#[derive(Clone, Copy)]
pub struct Tally {
    /// The number of the group of the last one.
    pub group: u64,
    /// How many leaders the groups before carry together.
    pub base: usize,
    /// How many this one carries: the most of its leaders on one bank.
    pub most: usize,
}

/// No leader is counted on a bank any more.
pub fn count_none(numbers: &mut Vec<usize>)
    ensures { numbers.new.items ≡ [] }
{
    numbers.clear();
}

/// No path is counted.
pub fn no_tally() -> Tally
    ensures { result ≡ record { group = 0; base = 0; most = 0 } }
{
    Tally {
        group: 0,
        base: 0,
        most: 0,
    }
}

/// Whether the next path is of the group of the last one.
fn is_group(tally: Tally, group: u64) -> bool
    ensures { result ≡ (tally.group == group) }
{
    tally.group == group
}

/// What is counted when the paths go on to a group.
fn entered(tally: Tally, group: u64) -> Tally
    ensures { result ≡ tally_in tally group }
{
    if tally.group == group {
        tally
    } else {
        Tally {
            group,
            base: tally.base.saturating_add(tally.most),
            most: 0,
        }
    }
}

/// Keeps the leaders that are counted, or counts none.
fn keep_counts(numbers: &mut Vec<usize>, keeps: bool)
    ensures { numbers.new.items ≡ (if keeps then numbers.old.items else []) }
{
    if !keeps {
        count_none(numbers);
    }
}

/// One more copy, on a bank that has so many leaders.
fn counted(tally: Tally, leads: bool, count: usize) -> Tally
    ensures { result ≡ tally_with tally leads count }
{
    if leads {
        Tally {
            group: tally.group,
            base: tally.base,
            most: tally.most.max(count.saturating_add(1)),
        }
    } else {
        tally
    }
}

/// Counts a leader on a bank that has so many.
fn count_leader(
    numbers: &mut Vec<usize>,
    leads: bool,
    bank: u32,
    count: usize,
) -> Result<(), NoMemory>
    ensures { OnOk result
        (table_at numbers.new.items ≡ numbers_with numbers.old.items leads bank count) }
{
    if leads {
        set_at(numbers, bank, count.saturating_add(1))?;
    }
    Ok(())
}

/// Counts the copy at the next path, which is of this group. Gives its place.
pub fn place_next(
    tally: Tally,
    numbers: &mut Vec<usize>,
    group: u64,
    bank: u32,
    leads: bool,
) -> Result<(Tally, u32), NoMemory>
    ensures { IfOk result (λ r. PlacesNextCopy tally group bank leads numbers.old.items
        numbers.new.items r.0 r.1) }
{
    let same = is_group(tally, group);
    keep_counts(numbers, same);
    let now = entered(tally, group);
    let count = get_at(numbers.as_slice(), bank);
    let sum = count.saturating_add(now.base);
    let place = narrow(sum as u64);
    count_leader(numbers, leads, bank, count)?;
    let next = counted(now, leads, count);
    Ok((next, place))
}
