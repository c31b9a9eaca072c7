//! Numbers by number: what stands at a place that was never set is 0.

ghost use Rattle.std.specs.Prelude.{◌≡◌, ◌≤◌, None, OnErr, OnOk, length, slice_index};
ghost use Rattle.dh_events.specs.Tables.{with_number, ChangesKept, ChangesNumbers};

use dh_base::NoMemory;

/// Adds zeros up to a length.
#[tactic(auto, using(crate::proofs::Turns::zeros_more))]
fn grow(numbers: &mut Vec<usize>, to: usize) -> Result<(), NoMemory>
    ensures same { OnOk result (ChangesNumbers numbers.old numbers.new (λ f. f)) }
    ensures long { OnOk result (to ≤ length numbers.new.items) }
{
    for _ in numbers.len()..to {
        numbers.push(0)?;
    }
    Ok(())
}

/// Puts a number at a place, which memory may lack.
#[tactic(auto, using(crate::proofs::Turns::number_set))]
pub fn set_number(numbers: &mut Vec<usize>, place: usize, number: usize) -> Result<(), NoMemory>
    ensures { OnOk result (ChangesNumbers numbers.old numbers.new (λ f. with_number f place number)) }
{
    grow(numbers, place.saturating_add(1))?;
    numbers[place] = number;
    Ok(())
}

/// Puts a number at a place.
pub fn set_at(numbers: &mut Vec<usize>, place: u32, number: usize) -> Result<(), NoMemory>
    ensures { OnOk result (ChangesNumbers numbers.old numbers.new (λ f. with_number f place number)) }
{
    set_number(numbers, place as usize, number)
}

/// Puts a number at a place, where numbers are kept at all; else it takes no memory.
pub fn keep_at(numbers: &mut Option<Vec<usize>>, place: u32, number: usize) -> Result<(), NoMemory>
    ensures kept { OnOk result (ChangesKept numbers.old numbers.new
        (λ f. with_number f place number)) }
    ensures wants { OnErr result (numbers.old ≡ None → ⊥) }
{
    match numbers {
        Some(numbers) => set_at(numbers, place, number),
        None => Ok(()),
    }
}

/// The number at a place.
pub fn get_at(numbers: &[usize], place: u32) -> usize
    ensures { result ≡ slice_index numbers.now place }
{
    get_number(numbers, place as usize)
}

/// The number at a place that may be beyond.
pub fn get_number(numbers: &[usize], place: usize) -> usize
    ensures { result ≡ slice_index numbers.now place }
{
    if place < numbers.len() {
        numbers[place]
    } else {
        0
    }
}
