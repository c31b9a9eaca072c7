//! A net without the cells and registers that it does not need.

ghost use Rattle.std.specs.Prelude.{IfOk};
ghost use Rattle.dh_net.specs.Valid.{IsValid};
ghost use Rattle.dh_swept.specs.SweptParts.{AreSweptParts};
ghost use Rattle.dh_swept.specs.SweptLaws.{IsSweptOf};

use crate::keeping::{keep_cells, keep_registers, rename_drivers};
use crate::marking::mark_needed;
use crate::numbering::{number_marked, number_of};
use dh_base::{Items, NoMemory};
use dh_net::{Cell, Driver, Net, Register};
use std::alloc::Global;

/// What is new of a net without the cells and registers that it does not need.
#[derive(Drop)]
pub struct Swept {
    /// Its registers.
    pub registers: Items<Register>,
    /// Its cells.
    pub cells: Items<Cell>,
    /// The drivers of its ports.
    pub drivers: Items<Items<Driver>>,
    /// Its outputs.
    pub tick: u64,
    pub done: u64,
    pub fault: u64,
}

/// What is new of a net without the cells and registers that it does not need.
fn sweep_parts(alloc: Global, net: &Net) -> Result<Swept, NoMemory>
    requires { IsValid net.now }
    ensures { IfOk result (λ swept. AreSweptParts net.now swept) }
{
    let marks = mark_needed(alloc, net)?;
    let wires = number_marked(alloc, marks.wires.as_slice())?;
    let held = number_marked(alloc, marks.registers.as_slice())?;
    let (at, to) = (wires.at.as_slice(), wires.to.as_slice());
    let cells = keep_cells(alloc, at, to, held.to.as_slice(), net.cells.as_slice())?;
    let registers = keep_registers(alloc, held.at.as_slice(), to, net.registers.as_slice())?;
    let drivers = rename_drivers(alloc, to, net.drivers.as_slice())?;
    let (tick, done, fault) = (
        number_of(to, net.tick),
        number_of(to, net.done),
        number_of(to, net.fault),
    );
    Ok(Swept {
        registers,
        cells,
        drivers,
        tick,
        done,
        fault,
    })
}

/// The net with what is new of it.
fn join_swept(net: Net, swept: Swept) -> Net
    requires valid { IsValid net }
    requires parts { AreSweptParts net swept }
    ensures { IsSweptOf net result }
{
    Net {
        table: net.table,
        faults: net.faults,
        registers: swept.registers,
        cells: swept.cells,
        drivers: swept.drivers,
        tick: swept.tick,
        done: swept.done,
        fault: swept.fault,
    }
}

/// The net with the cells and the registers that its outputs and the drivers of its ports need, and without all others.
/// It does the same: it is valid, and plays what the net plays. Time is linear.
///
/// # Errors
///
/// `NoMemory` where an allocation was refused.
pub fn sweep(alloc: Global, net: Net) -> Result<Net, NoMemory>
    requires { IsValid net }
    ensures { IfOk result (λ swept. IsSweptOf net swept) }
{
    match sweep_parts(alloc, &net) {
        Ok(swept) => Ok(join_swept(net, swept)),
        Err(fault) => Err(fault),
    }
}
