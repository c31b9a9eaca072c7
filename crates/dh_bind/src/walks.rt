//! The walk itself, part by part of the tree.

ghost use Rattle.std.specs.Prelude.{◌≡◌, ◌<◌, Some, length};
ghost use Rattle.dh_tree.specs.Meets.{access as meets_access};
ghost use Rattle.dh_plan.specs.SeenPlans.{meets_seen};
ghost use Rattle.dh_bind.specs.Costs.{memory_of_access};
ghost use Rattle.dh_bind.specs.Standings.{ChargesRow, WalksMeets};
ghost use Rattle.dh_plan.specs.SeenPlans.{alls, ones};

use crate::walker::{WalkStop, Walker};
use dh_plan::Meets;
use std::alloc::Global;

/// Grants an access the ports that it charges on the banks that are listed.
fn charge_row(walker: &mut Walker, access: u32, memory: u32) -> Result<(), WalkStop>
    requires row { access < length walker.old.costs.memories }
    requires inside { memory < length walker.old.ledgers }
    requires memory { memory_of_access walker.old.costs.memories access ≡ Some memory }
    ensures { ChargesRow access memory walker.old walker.new result }
{
    for bank in 0..walker.width() {
        walker.charge_bank(access, memory, bank)?;
    }
    Ok(())
}

/// Grants an access the ports that it charges.
fn charge(walker: &mut Walker, access: u32) -> Result<(), WalkStop>
    ensures { WalksMeets (meets_access access) walker.old walker.new result }
{
    match walker.memory_of(access) {
        Some(memory) => {
            let Ok(()) = walker.note(memory) else {
                return Err(WalkStop::NoMemory);
            };
            charge_row(walker, access, memory)
        }
        None => Ok(()),
    }
}

/// Walks parts, one behind the other.
#[cycle(walk)]
fn walk_all(walker: &mut Walker, alloc: Global, parts: &[Meets]) -> Result<(), WalkStop>
    ensures { WalksMeets (alls parts.now) walker.old walker.new result }
{
    for part in parts {
        walk(walker, alloc, part)?;
    }
    Ok(())
}

/// Walks parts of which no two meet: each from where they all begin.
#[cycle(walk)]
fn walk_one(walker: &mut Walker, alloc: Global, parts: &[Meets]) -> Result<(), WalkStop>
    ensures { WalksMeets (ones parts.now) walker.old walker.new result }
{
    let begun = walker.logged();
    let mut ends = Vec::new(alloc);
    for part in parts {
        walk(walker, alloc, part)?;
        let Ok(()) = walker.take_back(begun, &mut ends) else {
            return Err(WalkStop::NoMemory);
        };
    }
    let Ok(()) = walker.raise(ends.as_slice()) else {
        return Err(WalkStop::NoMemory);
    };
    Ok(())
}

/// Walks a tree.
#[cycle(walk)]
#[tactic(auto, using(dh_plan::proofs::SeenMeets::meets_are))]
pub fn walk(walker: &mut Walker, alloc: Global, tree: &Meets) -> Result<(), WalkStop>
    ensures { WalksMeets (meets_seen tree.now) walker.old walker.new result }
{
    match tree {
        Meets::Access { access } => charge(walker, *access),
        Meets::All { parts } => walk_all(walker, alloc, parts.as_slice()),
        Meets::One { parts } => walk_one(walker, alloc, parts.as_slice()),
    }
}
