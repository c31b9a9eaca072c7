//! What all blocks of a plan do at the end of a step, and where all states lead.

ghost use Rattle.std.specs.Prelude.{◌≡◌, length, map, OnOk};
ghost use Rattle.std.specs.List.{AllByRecursion};
ghost use Rattle.dh_cells.specs.Settled.{AreWires, IsWire};
ghost use Rattle.dh_control.specs.AllBlocks.{AllChecksAdded, AllSetsAdded, ChecksSuit, SetsSuit, WaysAdded, state_ways};
ghost use Rattle.dh_control.specs.SizedWires.{WiresAreSized};
ghost use Rattle.dh_control.specs.StateWires.{AreStands};
ghost use Rattle.dh_plan.specs.SeenGraphs.{FitsThread};
ghost use Rattle.dh_control.specs.WayMoves.{HoldsStates};

use crate::checking::push_checks;
use crate::gathering::Keyed;
use crate::leading::push_way;
use crate::setting::push_sets;
use dh_base::{Items, NoMemory};
use dh_cells::{Circuit, Tested, push_both};
use dh_plan::{PlanBlock, State};

/// Adds the moves of what all blocks set.
pub fn push_all_sets(
    circuit: &mut Circuit,
    widths: &[u8],
    commits: &[u64],
    wires: &[u64],
    blocks: &[PlanBlock],
    moves: &mut Items<Keyed<Tested>>,
) -> Result<(), NoMemory>
    requires commits { AreWires circuit.old commits.now 1 }
    requires each { length commits.now ≡ length blocks.now }
    requires suit { SetsSuit circuit.old widths.now wires.now blocks.now }
    ensures { OnOk result (AllSetsAdded circuit.old circuit.new widths.now commits.now wires.now 0
        blocks.now moves.old moves.new) }
{
    for i in (0..blocks.len()).rev() {
        let operations = blocks[i].operations.as_slice();
        push_sets(circuit, widths, commits[i], wires, operations, moves)?;
    }
    Ok(())
}

/// Adds the tests of the checks of all blocks.
pub fn push_all_checks(
    circuit: &mut Circuit,
    active: &[u64],
    wires: &[u64],
    blocks: &[PlanBlock],
    tests: &mut Items<Tested>,
) -> Result<(), NoMemory>
    requires active { AreWires circuit.old active.now 1 }
    requires each { length active.now ≡ length blocks.now }
    requires suit { ChecksSuit circuit.old wires.now blocks.now }
    ensures { OnOk result (AllChecksAdded circuit.old circuit.new active.now wires.now blocks.now
        tests.old tests.new) }
{
    for i in 0..blocks.len() {
        let operations = blocks[i].operations.as_slice();
        push_checks(circuit, active[i], wires, operations, tests)?;
    }
    Ok(())
}

/// Adds the moves of the ways behind all states.
pub fn push_ways(
    circuit: &mut Circuit,
    widths: &[u8],
    width: u8,
    state: u64,
    commit: u64,
    stands: &[Keyed<u64>],
    states: &[State],
    after: &mut Vec<u64>,
    moves: &mut Items<Keyed<Tested>>,
    leads: &mut Items<Keyed<Tested>>,
) -> Result<(), NoMemory>
    requires commit { IsWire circuit.old commit 1 }
    requires width { HoldsStates width (length states.now) }
    requires stands { AreStands circuit.old state 0 (map (λ s. s.block) states.now) stands.now }
    requires after { WiresAreSized circuit.old widths.now after.old.items }
    requires ways { AllByRecursion
        (λ s. FitsThread (length states.now) (length widths.now) s.next) states.now }
    ensures { OnOk result (WaysAdded circuit.old circuit.new widths.now width (length states.now)
        state commit after.old.items (state_ways states.now) (length states.now)
        moves.old moves.new leads.old leads.new) }
{
    let count = states.len() as u64;
    for i in 0..states.len() {
        let active = push_both(circuit, commit, stands[i].item)?;
        let way = &states[i].next;
        push_way(
            circuit, widths, width, count, active, way, after, moves, leads,
        )?;
    }
    Ok(())
}
