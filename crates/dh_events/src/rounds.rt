//! Which unrolled loops stand round what.

ghost use Rattle.std.specs.Prelude.{◌≡◌, ◌++◌, ◌∷◌, [], ◌≤◌, IfOk, OnOk, length};
ghost use Rattle.dh_events.specs.Accesses.{loops_listed};
ghost use Rattle.dh_events.specs.Rounds.{with_round, AreRounds};

use dh_base::NoMemory;
use dh_tree::Counter;
use std::alloc::Global;

/// Adds empty lists up to a length.
fn grow(alloc: Global, rounds: &mut Vec<Vec<Counter>>, to: usize) -> Result<(), NoMemory>
    ensures same { OnOk result (AreRounds rounds.old rounds.new (λ f. f)) }
    ensures long { OnOk result (to ≤ length rounds.new.items) }
{
    for _ in rounds.len()..to {
        rounds.push(Vec::new(alloc))?;
    }
    Ok(())
}

/// Puts a list at a place.
pub(crate) fn set_round(
    alloc: Global,
    rounds: &mut Vec<Vec<Counter>>,
    place: u32,
    loops: Vec<Counter>,
) -> Result<(), NoMemory>
    ensures { OnOk result (AreRounds rounds.old rounds.new
        (λ f. with_round f place loops.items)) }
{
    let place = place as usize;
    grow(alloc, rounds, place + 1)?;
    rounds[place] = loops;
    Ok(())
}

/// Loops and one more inside them.
pub(crate) fn inside(
    alloc: Global,
    outer: &[Counter],
    counter: Counter,
) -> Result<Vec<Counter>, NoMemory>
    ensures { IfOk result (λ loops. loops.items ≡ outer.now ++ counter ∷ []) }
{
    // no list of loops grows once it is made
    let mut loops = Vec::with_capacity(alloc, outer.len().saturating_add(1))?;
    loops.extend_from_slice(outer)?;
    loops.push(counter)?;
    Ok(loops)
}

/// The unrolled loops inside which something stands, from the outside.
pub fn loops_round(rounds: &[Vec<Counter>], round: Option<u32>) -> &[Counter]
    ensures { result.now ≡ loops_listed rounds.now round }
{
    match round {
        Some(id) => {
            let place = id as usize;
            if place < rounds.len() {
                rounds[place].as_slice()
            } else {
                &[]
            }
        }
        None => &[],
    }
}
