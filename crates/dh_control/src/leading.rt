//! Where the steps of one thread lead, as moves of its state and of counters.

ghost use Rattle.std.specs.Prelude.{◌≡◌, ◌<◌, ◌++◌, length, slice_index, slice_set, IfOk, OnOk};
ghost use Rattle.dh_cells.specs.Settled.{IsWire};
ghost use Rattle.dh_control.specs.SizedWires.{WiresAreSized};
ghost use Rattle.dh_plan.specs.SeenGraphs.{FitsThread};
ghost use Rattle.dh_control.specs.WayMoves.{BranchMade, CountedMade, HoldsStates, LeadAdded, WayAdded, counts, way_of_decision};

use crate::gathering::Keyed;
use crate::testing::push_number_test;
use dh_base::{Items, NoMemory};
use dh_cells::{Circuit, Tested, push_both, push_more, push_not};
use dh_plan::Decision;

/// Two wires, of which one at most is 1.
#[derive(Clone, Copy)]
pub struct Branch {
    /// Where a thread goes on, and a test holds.
    pub chosen: u64,
    /// Where it goes on, and the test does not hold.
    pub other: u64,
}

/// The next values of a counter.
#[derive(Clone, Copy)]
pub struct Counted {
    /// 0.
    pub none: u64,
    /// One more.
    pub more: u64,
}

/// Adds wires for the ways of an active thread: where the wire of a register shows a number, and where it does not.
fn push_branch(
    circuit: &mut Circuit,
    widths: &[u8],
    wires: &[u64],
    active: u64,
    register: u64,
    number: u64,
) -> Result<Branch, NoMemory>
    requires active { IsWire circuit.old active 1 }
    requires wires { WiresAreSized circuit.old widths.now wires.now }
    requires register { register < length widths.now }
    ensures { IfOk result (λ b. BranchMade circuit.old circuit.new active
        (slice_index wires.now register) number b) }
{
    let at = register as usize;
    let test = push_number_test(circuit, widths[at], wires[at], number)?;
    let chosen = push_both(circuit, active, test)?;
    let fails = push_not(circuit, test)?;
    let other = push_both(circuit, active, fails)?;
    Ok(Branch { chosen, other })
}

/// Adds wires for the next values of a counter.
fn push_counted(
    circuit: &mut Circuit,
    widths: &[u8],
    wires: &[u64],
    counter: u64,
) -> Result<Counted, NoMemory>
    requires wires { WiresAreSized circuit.old widths.now wires.now }
    requires counter { counter < length widths.now }
    ensures { IfOk result (λ c. CountedMade circuit.old circuit.new
        (slice_index widths.now counter) (slice_index wires.now counter) c) }
{
    let at = counter as usize;
    let none = circuit.push_constant(widths[at], 0)?;
    let more = push_more(circuit, widths[at], wires[at])?;
    Ok(Counted { none, more })
}

/// The wire of a register.
fn wire_of(wires: &[u64], register: u64) -> u64
    requires { register < length wires.now }
    ensures { result ≡ slice_index wires.now register }
{
    wires[register as usize]
}

/// Has a register go by another wire.
fn set_wire(wires: &mut Vec<u64>, register: u64, wire: u64)
    requires { register < length wires.old.items }
    ensures { wires.new.items ≡ slice_set wires.old.items register wire }
{
    wires[register as usize] = wire;
}

/// Adds the move of a state to this number.
pub fn push_lead(
    circuit: &mut Circuit,
    width: u8,
    active: u64,
    number: u64,
    leads: &mut Items<Keyed<Tested>>,
) -> Result<(), NoMemory>
    requires active { IsWire circuit.old active 1 }
    requires number { HoldsStates width number }
    ensures { OnOk result
        (LeadAdded circuit.old circuit.new width active number leads.old leads.new) }
{
    let value = circuit.push_constant(width, number)?;
    leads.push(Keyed {
        key: 0,
        item: Tested {
            test: active,
            value,
        },
    })?;
    Ok(())
}

/// Adds the moves of a counter: to 0 where a test of one bit shows 1, and to one more where another does.
fn push_counts(
    counter: u64,
    branch: Branch,
    values: Counted,
    moves: &mut Items<Keyed<Tested>>,
) -> Result<(), NoMemory>
    ensures { OnOk result (moves.new ≡ moves.old ++ counts counter branch values) }
{
    moves.push(Keyed {
        key: counter,
        item: Tested {
            test: branch.chosen,
            value: values.none,
        },
    })?;
    moves.push(Keyed {
        key: counter,
        item: Tested {
            test: branch.other,
            value: values.more,
        },
    })?;
    Ok(())
}

/// Adds the moves of a way: of the state of its thread, and of the counters that it counts. `after` are the wires of
/// registers as they are after the step.
#[tactic(auto, using(crate::proofs::DecisionForms::decisions_are))]
pub fn push_way(
    circuit: &mut Circuit,
    widths: &[u8],
    width: u8,
    states: u64,
    active: u64,
    way: &Decision,
    after: &mut Vec<u64>,
    moves: &mut Items<Keyed<Tested>>,
    leads: &mut Items<Keyed<Tested>>,
) -> Result<(), NoMemory>
    requires active { IsWire circuit.old active 1 }
    requires states { HoldsStates width states }
    requires after { WiresAreSized circuit.old widths.now after.old.items }
    requires way { FitsThread states (length widths.now) way.now }
    ensures added { OnOk result (WayAdded circuit.old circuit.new widths.now width states active
        after.old.items (way_of_decision way.now) moves.old moves.new leads.old leads.new) }
    ensures kept { OnOk result (after.new.items ≡ after.old.items) }
{
    match way {
        Decision::Go { state } => push_lead(circuit, width, active, *state, leads),
        Decision::Rest => push_lead(circuit, width, active, states, leads),
        Decision::Fork { .. } => unreachable!(),
        Decision::Test { flag, yes, no } => {
            let wires = after.as_slice();
            let branch = push_branch(circuit, widths, wires, active, *flag, 1)?;
            let (chosen, other) = (branch.chosen, branch.other);
            push_way(
                circuit, widths, width, states, chosen, yes, after, moves, leads,
            )?;
            push_way(
                circuit, widths, width, states, other, no, after, moves, leads,
            )?;
            Ok(())
        }
        Decision::Count {
            counter,
            last,
            again,
            past,
        } => {
            let wires = after.as_slice();
            let wire = wire_of(wires, *counter);
            let branch = push_branch(circuit, widths, wires, active, *counter, *last)?;
            let counted = push_counted(circuit, widths, wires, *counter)?;
            let (chosen, other) = (branch.chosen, branch.other);
            set_wire(after, *counter, counted.none);
            push_way(
                circuit, widths, width, states, chosen, past, after, moves, leads,
            )?;
            set_wire(after, *counter, counted.more);
            push_way(
                circuit, widths, width, states, other, again, after, moves, leads,
            )?;
            set_wire(after, *counter, wire);
            push_counts(*counter, branch, counted, moves)?;
            Ok(())
        }
    }
}
