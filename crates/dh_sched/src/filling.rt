//! Which clocks of a block have room for one more multiplication.
//! A clock without room has a way to a later one, over clocks without room. A walk along ways halves them as it goes,
//! so that all walks of a block together take few steps for each multiplication: O(log n), and nearly one as a rule.

ghost use Rattle.std.specs.Prelude.{ℕ, ◌≡◌, ◌+◌, ◌<◌, ◌≤◌, ◌^◌, max, length, slice_index, OnOk};
ghost use Rattle.dh_sched.specs.FullClocks.{WaysSkipFullClocks, HasTried, CountsAt, PlacesForm, FindsRoom};

use crate::kinds::is_product;
use dh_base::NoMemory;
use dh_plan::OperationForm;

// Where the way of a clock leads; 0 where it has none.
fn way_at(ways: &[usize], at: usize) -> usize
    ensures { result ≡ slice_index ways.now at }
{
    match ways.get(at) {
        Some(next) => *next,
        None => 0,
    }
}

// How many multiplications a clock has.
fn count_at(counts: &[u32], at: usize) -> u32
    ensures { result ≡ slice_index counts.now at }
{
    match counts.get(at) {
        Some(count) => *count,
        None => 0,
    }
}

// The next clock to try from one without room, whose way is then that long; None where the clock has room.
fn next_to_try(limit: u32, counts: &[u32], ways: &mut [usize], at: usize) -> Option<usize>
    requires one { 1 ≤ limit }
    requires both { length ways.old ≡ length counts.now }
    requires ways { WaysSkipFullClocks limit counts.now ways.old }
    ensures ways { WaysSkipFullClocks limit counts.now ways.new }
    ensures tried { HasTried limit counts.now at result }
{
    if count_at(counts, at) < limit {
        return None;
    }
    let to = way_at(ways, at);
    let next = to.max(way_at(ways, to));
    ways[at] = next;
    Some(next)
}

// The first clock from a start on that has room.
fn first_room(limit: u32, counts: &[u32], ways: &mut [usize], start: usize) -> usize
    requires one { 1 ≤ limit }
    requires both { length ways.old ≡ length counts.now }
    requires ways { WaysSkipFullClocks limit counts.now ways.old }
    ensures ways { WaysSkipFullClocks limit counts.now ways.new }
    ensures found { FindsRoom limit counts.now start result }
{
    let mut at = start;
    while let Some(next) = next_to_try(limit, counts, ways, at) {
        at = next;
    }
    at
}

// Has room for the counts of all clocks up to this one.
fn reach(counts: &mut Vec<u32>, ways: &mut Vec<usize>, clock: usize) -> Result<(), NoMemory>
    requires small { clock + 1 < 2 ^ 64 }
    requires both { length ways.old.items ≡ length counts.old.items }
    ensures both { OnOk result (length ways.new.items ≡ length counts.new.items) }
    ensures long { OnOk result (length counts.new.items
        ≡ max (length counts.old.items) (clock + 1)) }
    ensures counts { OnOk result ((at : ℕ) → slice_index counts.new.items at
        ≡ slice_index counts.old.items at) }
    ensures ways { OnOk result ((at : ℕ) → slice_index ways.new.items at
        ≡ slice_index ways.old.items at) }
{
    let long = counts.len().max(clock + 1);
    counts.resize(long, 0)?;
    ways.resize(long, 0)?;
    Ok(())
}

// The way from a clock with so many multiplications.
fn way_from(limit: u32, count: u32, clock: usize) -> usize
    requires { clock + 1 < 2 ^ 64 }
    ensures free { count < limit → result ≡ 0 }
    ensures full { limit ≤ count → result ≡ clock + 1 }
{
    if count < limit { 0 } else { clock + 1 }
}

// Counts one more multiplication at a clock that has room.
fn fill(
    limit: u32,
    counts: &mut Vec<u32>,
    ways: &mut Vec<usize>,
    clock: usize,
) -> Result<(), NoMemory>
    requires small { clock + 1 < 2 ^ 64 }
    requires both { length ways.old.items ≡ length counts.old.items }
    requires ways { WaysSkipFullClocks limit counts.old.items ways.old.items }
    requires room { slice_index counts.old.items clock < limit }
    ensures both { OnOk result (length ways.new.items ≡ length counts.new.items) }
    ensures long { OnOk result (length counts.new.items
        ≡ max (length counts.old.items) (clock + 1)) }
    ensures counts { OnOk result (CountsAt counts.old.items counts.new.items clock) }
    ensures ways { OnOk result (WaysSkipFullClocks limit counts.new.items ways.new.items) }
{
    reach(counts, ways, clock)?;
    let count = count_at(counts.as_slice(), clock) + 1;
    counts[clock] = count;
    ways[clock] = way_from(limit, count, clock);
    Ok(())
}

/// The first clock from a start on that has room for an operation of this form, which is then counted there.
pub fn place_from(
    limit: u32,
    counts: &mut Vec<u32>,
    ways: &mut Vec<usize>,
    form: &OperationForm,
    start: u128,
) -> Result<u128, NoMemory>
    requires start { start + 1 < 2 ^ 64 }
    requires long { length counts.old.items + 1 < 2 ^ 64 }
    requires both { length ways.old.items ≡ length counts.old.items }
    requires ways { 1 ≤ limit → WaysSkipFullClocks limit counts.old.items ways.old.items }
    ensures { PlacesForm limit form.now start counts.old.items counts.new.items ways.new.items
        result }
{
    if limit == 0 {
        return Ok(start);
    }
    if !is_product(form) {
        return Ok(start);
    }
    let clock = first_room(
        limit,
        counts.as_slice(),
        ways.as_mut_slice(),
        start as usize,
    );
    fill(limit, counts, ways, clock)?;
    Ok(clock as u128)
}
