//! The flat arrays of a simulator: how they are made, and what a clock does to them.

ghost use Rattle.std.specs.Prelude.{◌≡◌, ◌<◌, ◌^◌, length, map, replicate, slice_index, IfOk};
ghost use Rattle.dh_net.specs.Valid.{IsValid};
ghost use Rattle.dh_net.specs.Clock.{IsValuation, Clocks, has_clashes};
ghost use Rattle.dh_sim.specs.Layouts.{IsTableLayout, ArraysFit};
ghost use Rattle.dh_sim.specs.Points.{IsSoundPoint, lists_of, state_of_arrays};
ghost use Rattle.dh_sim.specs.Shows.{ShowsAs};

use crate::cells::settle;
use crate::layouts::Layout;
use crate::ports::{is_any_clash, load_registers, read_ports, write_ports};
use dh_base::NoMemory;
use dh_net::Net;
use std::alloc::Global;

/// What a net shows in a state.
#[derive(Clone, Copy, PartialEq, Eq)]
pub struct Shown {
    /// Whether the last clock ended a logical step without fault.
    pub tick: bool,
    /// Whether the program has ended.
    pub done: bool,
    /// The number of the fault in which the program ended, from 1, else 0.
    pub fault: u32,
    /// Whether the last clock had two active drivers on one port.
    pub clash: bool,
}

/// The values of the registers before the first clock.
pub fn initial_registers(alloc: Global, net: &Net) -> Result<Vec<u64>, NoMemory>
    ensures { IfOk result (λ v. v.items ≡ map (λ r. r.initial) net.now.registers) }
{
    Ok(
        net.registers
            .as_slice()
            .iter()
            .map(|r| r.initial)
            .collect(alloc)?,
    )
}

/// So many zeros.
pub fn zeros(alloc: Global, count: usize) -> Result<Vec<u64>, NoMemory>
    ensures { IfOk result (λ v. v.items ≡ replicate count 0) }
{
    Ok(vec![in alloc; 0; count]?)
}

/// The wires of a state.
pub fn settled_wires(
    alloc: Global,
    net: &Net,
    layout: &Layout,
    registers: &[u64],
    held: &[u64],
) -> Result<Vec<u64>, NoMemory>
    requires valid { IsValid net.now }
    requires layout { IsTableLayout net.now.table layout.now }
    requires fit { ArraysFit net.now registers.now held.now }
    requires registers { length registers.now ≡ length net.now.registers }
    requires held { length held.now ≡ length net.now.drivers }
    ensures { IfOk result (λ v. IsValuation net.now.table net.now.cells registers.now held.now
        v.items) }
{
    let mut wires = zeros(alloc, net.cells.len())?;
    settle(net, layout, registers, held, &mut wires);
    Ok(wires)
}

/// A copy of lists.
pub fn copied(alloc: Global, lists: &[Vec<u64>]) -> Result<Vec<Vec<u64>>, NoMemory>
    ensures { IfOk result (λ v. lists_of v.items ≡ lists_of lists.now) }
{
    let mut copies = Vec::with_capacity(alloc, lists.len())?;
    for list in lists {
        let copy = Vec::from_slice(alloc, list.as_slice())?;
        copies.push(copy)?;
    }
    Ok(copies)
}

/// What the net shows by these wires.
pub fn shown_by(net: &Net, wires: &[u64], clash: bool) -> Shown
    requires valid { IsValid net.now }
    requires wires { length wires.now ≡ length net.now.cells }
    requires small { slice_index wires.now net.now.fault < 2 ^ 32 }
    ensures { ShowsAs result net.now wires.now clash }
{
    Shown {
        tick: wires[net.tick as usize] == 1,
        done: wires[net.done as usize] == 1,
        fault: wires[net.fault as usize] as u32,
        clash,
    }
}

/// Clocks the net once, and tells whether two active drivers met on some port. Takes no memory.
pub fn clock_arrays(
    net: &Net,
    layout: &Layout,
    registers: &mut [u64],
    held: &mut [u64],
    memories: &mut [Vec<u64>],
    wires: &mut [u64],
) -> bool
    requires layout { IsTableLayout net.now.table layout.now }
    requires sound { IsSoundPoint net.now (state_of_arrays registers.old held.old memories.old) wires.old }
    ensures clocked { Clocks net.now (state_of_arrays registers.old held.old memories.old)
        (state_of_arrays registers.new held.new memories.new) }
    ensures sound { IsSoundPoint net.now (state_of_arrays registers.new held.new memories.new) wires.new }
    ensures clash { result ≡ has_clashes wires.old net.now.drivers }
{
    let ports = layout.ports.as_slice();
    let clash = is_any_clash(net, wires);
    read_ports(net, ports, wires, memories, held);
    write_ports(net, ports, wires, memories);
    load_registers(net, wires, registers);
    settle(net, layout, registers, held, wires);
    clash
}
