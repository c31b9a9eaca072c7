//! Where the graph stands, and the clock of the step: which blocks are active, and whether they are done.

ghost use Rattle.std.specs.Prelude.{◌≡◌, ◌<◌, ◌≤◌, ◌^◌, length, map, slice_index, IfOk};
ghost use Rattle.std.specs.List.{AllByRecursion};
ghost use Rattle.dh_value.specs.Words.{IsWidth};
ghost use Rattle.dh_cells.specs.Settled.{AreWires, IsWire, WireAdded};
ghost use Rattle.dh_cells.specs.ShownValues.{match_shown};
ghost use Rattle.dh_control.specs.StateWires.{StandsMade, active_shown, waits_shown, wait_of, with_each_shown};
ghost use Rattle.dh_control.specs.WireLists.{EachTells};

use crate::gathering::{Keyed, gather};
use dh_base::{Items, NoMemory};
use dh_cells::{Circuit, push_any, push_both, push_match};
use dh_net::CellForm;
use dh_plan::State;
use std::alloc::Global;

/// Adds for each state a wire that is 1 where the graph stands there, under the number of its block.
pub fn push_stands(
    alloc: Global,
    circuit: &mut Circuit,
    width: u8,
    wire: u64,
    states: &[State],
) -> Result<Items<Keyed<u64>>, NoMemory>
    requires wire { IsWire circuit.old wire width }
    requires few { length states.now < 2 ^ width }
    ensures { IfOk result (λ stands. StandsMade circuit.old circuit.new wire
        (map (λ s. s.block) states.now) stands) }
{
    let mut stands = Items::new(alloc);
    for i in 0..states.len() {
        let item = push_match(circuit, width, wire, i as u64)?;
        let key = states[i].block;
        stands.push(Keyed { key, item })?;
    }
    Ok(stands)
}

/// Adds for each of so many blocks a wire that is 1 where it is active.
pub fn push_active(
    alloc: Global,
    circuit: &mut Circuit,
    stands: &[Keyed<u64>],
    count: usize,
) -> Result<Items<u64>, NoMemory>
    requires { AllByRecursion (λ k. IsWire circuit.old k.item 1) stands.now }
    ensures { IfOk result
        (λ active. EachTells circuit.old circuit.new (active_shown stands.now) count active) }
{
    let lists = gather(alloc, count, stands)?;
    let lists = lists.as_slice();
    let mut active = Items::new(alloc);
    for i in 0..count {
        let wire = push_any(circuit, lists[i].as_slice())?;
        active.push(wire)?;
    }
    Ok(active)
}

/// Adds for each number below a count a wire that is 1 where a wire of a width shows it.
pub fn push_numbers(
    alloc: Global,
    circuit: &mut Circuit,
    width: u8,
    wire: u64,
    count: u64,
) -> Result<Items<u64>, NoMemory>
    requires wire { IsWire circuit.old wire width }
    requires few { count ≤ 2 ^ width }
    ensures { IfOk result
        (λ wires. EachTells circuit.old circuit.new (match_shown wire) count wires) }
{
    let mut wires = Items::new(alloc);
    for i in 0..count {
        let test = push_match(circuit, width, wire, i)?;
        wires.push(test)?;
    }
    Ok(wires)
}

/// Adds a wire that is 1 where a block of a length is active and not in its last clock.
fn push_wait(
    circuit: &mut Circuit,
    width: u8,
    clock: u64,
    active: u64,
    len: u64,
) -> Result<u64, NoMemory>
    requires clock { IsWire circuit.old clock width }
    requires active { IsWire circuit.old active 1 }
    requires some { 1 ≤ len }
    requires fits { len ≤ 2 ^ width }
    ensures { WireAdded result circuit.old circuit.new 1 (waits_shown clock active len) }
{
    let last = circuit.push_constant(width, len - 1)?;
    let earlier = circuit.push(1, CellForm::LtU { a: clock, b: last })?;
    push_both(circuit, active, earlier)
}

/// Adds for each block a wire that is 1 where it is active and not in its last clock.
pub fn push_waits(
    alloc: Global,
    circuit: &mut Circuit,
    width: u8,
    clock: u64,
    active: &[u64],
    lengths: &[u64],
) -> Result<Items<u64>, NoMemory>
    requires clock { IsWire circuit.old clock width }
    requires active { AreWires circuit.old active.now 1 }
    requires each { length lengths.now ≡ length active.now }
    requires fits { AllByRecursion (λ n. (1 ≤ n) × (n ≤ 2 ^ width)) lengths.now }
    ensures { IfOk result (λ waits. EachTells circuit.old circuit.new
        (wait_of clock active.now lengths.now) (length active.now) waits) }
{
    let mut waits = Items::new(alloc);
    for i in 0..active.len() {
        let wait = push_wait(circuit, width, clock, active[i], lengths[i])?;
        waits.push(wait)?;
    }
    Ok(waits)
}

/// Adds for each of these wires one that is 1 where it is and a test is.
pub fn push_each(
    alloc: Global,
    circuit: &mut Circuit,
    test: u64,
    wires: &[u64],
) -> Result<Items<u64>, NoMemory>
    requires test { IsWire circuit.old test 1 }
    requires wires { AreWires circuit.old wires.now 1 }
    ensures { IfOk result (λ all. EachTells circuit.old circuit.new
        (with_each_shown test wires.now) (length wires.now) all) }
{
    let mut all = Items::new(alloc);
    for i in 0..wires.len() {
        let both = push_both(circuit, test, wires[i])?;
        all.push(both)?;
    }
    Ok(all)
}
