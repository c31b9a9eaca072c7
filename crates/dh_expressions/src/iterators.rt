//! What iterators hold: copy c of turn t has the value `low + t * factor + c`. The turn is read
//! off the loop's counter. No multiplier is used for it: a multiple is a sum of shifts.

ghost use Rattle.std.specs.Prelude.{◌≡◌, ◌<◌, ◌≤◌, ◌/◌, ◌%◌, ◌^◌, true, false, IfOk};
ghost use Rattle.dh_expressions.specs.MadeValues.{MadeBit, MadeIterator, MadeMultiple, MadeShifted, MadeSum};
ghost use Rattle.dh_expressions.specs.Multiples.{AddsBit, IsCounterWidth, Multiplies, Sums, width_told};
ghost use Rattle.dh_expressions.specs.Evaluated.{GivesWhere, IsTurning, copy_in_turn, iterator_shown};

use crate::drafts::{Draft, push_compute, push_constant, push_convert, push_old};
use crate::paths::last_copy;
use crate::scenes::Lane;
use dh_base::NoMemory;
use dh_code::{VariableSlots, literal};
use dh_meaning::turn_count;
use dh_tree::{Counter, Kind};
use dh_value::Op;

/// One bit more than these where a number has it, or else the width so far.
fn width_with(last: u64, bits: u8, width: u8) -> u8
    ensures { bits < 64 → result ≡ width_told last bits width }
{
    if bits < 64 && last >> bits != 0 {
        bits + 1
    } else {
        width
    }
}

/// The width of a counter of so many turns: the least that has each number below the count.
pub fn counter_width(count: u64) -> u8
    ensures { IsCounterWidth count result }
{
    let last = count.saturating_sub(1);
    let mut width: u8 = 1;
    for bits in 1..64u8 {
        width = width_with(last, bits, width);
    }
    width
}

/// Adds a value of a kind, shifted left by so many bits.
fn push_shifted(draft: &mut Draft, value: u64, by: u8) -> Result<u64, NoMemory>
    ensures means { IfOk result (λ n. by < 64 → Multiplies draft.old draft.new value n (2 ^ by)) }
    ensures made { IfOk result (λ n. MadeShifted value by draft.old draft.new n) }
{
    if by == 0 {
        return Ok(value);
    }
    let amount = push_constant(draft, literal(Kind::Unsigned(6), false, u64::from(by)))?;
    push_compute(draft, Op::Shl, value, amount)
}

/// Adds the sum of a value and one that may lack.
fn push_sum(draft: &mut Draft, sum: Option<u64>, value: u64) -> Result<u64, NoMemory>
    ensures means { IfOk result (λ n. Sums draft.old draft.new sum value n) }
    ensures made { IfOk result (λ n. MadeSum sum value draft.old draft.new n) }
{
    match sum {
        Some(sum) => push_compute(draft, Op::Add, sum, value),
        None => Ok(value),
    }
}

/// Whether a bit of a factor is set.
fn has_bit(factor: u64, by: u8) -> bool
    ensures set { result ≡ true → factor / 2 ^ by % 2 ≡ 1 }
    ensures unset { result ≡ false → by < 64 → factor / 2 ^ by % 2 ≡ 0 }
{
    by < 64 && (factor >> by) % 2 == 1
}

/// Adds a value shifted left by so many bits to a sum, where this bit of a factor is set.
fn push_bit(
    draft: &mut Draft,
    sum: Option<u64>,
    value: u64,
    factor: u64,
    by: u8,
) -> Result<Option<u64>, NoMemory>
    ensures means { IfOk result (λ more. AddsBit draft.old draft.new sum value factor by more) }
    ensures made { IfOk result (λ more. MadeBit sum value by draft.old draft.new more) }
{
    if !has_bit(factor, by) {
        return Ok(sum);
    }
    let shifted = push_shifted(draft, value, by)?;
    Ok(Some(push_sum(draft, sum, shifted)?))
}

/// Adds a multiple of a value of a kind.
fn push_multiple(draft: &mut Draft, kind: Kind, value: u64, factor: u64) -> Result<u64, NoMemory>
    ensures means { IfOk result (λ n. 1 ≤ factor → Multiplies draft.old draft.new value n factor) }
    ensures made { IfOk result (λ n. MadeMultiple kind value draft.old draft.new n) }
{
    let mut sum = None;
    for by in 0..64u8 {
        sum = push_bit(draft, sum, value, factor, by)?;
    }
    match sum {
        Some(sum) => Ok(sum),
        None => push_constant(draft, literal(kind, false, 0)),
    }
}

/// The copy of a loop with this iterator at a path.
fn copy_of(counter: Counter, held: VariableSlots, lane: &Lane<'_>) -> u64
    ensures { result ≡ copy_in_turn counter held lane.now }
{
    if counter.factor <= 1 {
        0
    } else {
        last_copy(lane.around.levels, held.depth, lane.number)
    }
}

/// Adds what an iterator holds at a path, as a value of a kind.
pub fn push_iterator(
    draft: &mut Draft,
    lane: &Lane<'_>,
    counter: Counter,
    held: VariableSlots,
    kind: Kind,
) -> Result<u64, NoMemory>
    ensures means { IfOk result (λ n. GivesWhere draft.old draft.new n (λ x. IsTurning x counter
        held kind) (λ x. iterator_shown x counter held lane.now kind)) }
    ensures made { IfOk result (λ n. MadeIterator held kind draft.old draft.new n) }
{
    let start = counter.low.wrapping_add(copy_of(counter, held, lane));
    if turn_count(counter.low, counter.high, counter.factor) <= 1 {
        return push_constant(draft, literal(kind, false, start));
    }
    let old = push_old(draft, u64::from(held.first))?;
    let turn = push_convert(draft, old, kind)?;
    let multiple = push_multiple(draft, kind, turn, counter.factor)?;
    if start == 0 {
        return Ok(multiple);
    }
    let start = push_constant(draft, literal(kind, false, start))?;
    push_compute(draft, Op::Add, multiple, start)
}
