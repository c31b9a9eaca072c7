//! Wires for the registers of a plan, each made once.

ghost use Rattle.std.specs.Prelude.{IfOk};
ghost use Rattle.dh_datapath.specs.RegistersShown.{HasRegisters, RegistersAdded};

use dh_base::{Items, NoMemory};
use dh_cells::Circuit;
use dh_value::{Kind, width};
use std::alloc::Global;

/// The wires of a plan's registers.
#[derive(Drop)]
pub struct RegisterWires {
    /// The number of the plan's first register among those of the circuit.
    pub offset: u32,
    /// A wire for each register, which shows it.
    pub wires: Items<u64>,
}

/// Adds a wire for each of the circuit's registers from the offset on, which are of these kinds.
pub fn push_registers(
    alloc: Global,
    circuit: &mut Circuit,
    kinds: &[Kind],
    offset: u32,
) -> Result<RegisterWires, NoMemory>
    requires { HasRegisters circuit.old offset kinds.now }
    ensures { IfOk result
        (λ registers. RegistersAdded circuit.old circuit.new kinds.now offset registers) }
{
    let mut wires = Items::new(alloc);
    for (r, kind) in kinds.iter().enumerate() {
        let wire = circuit.push_register(width(*kind), u64::from(offset) + r as u64)?;
        wires.push(wire)?;
    }
    Ok(RegisterWires { offset, wires })
}
