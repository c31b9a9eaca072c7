//! The ports of the banks of memories.

ghost use Rattle.std.specs.Prelude.{◌≡◌, ◌<◌, ◌++◌, IfOk, OnOk};
ghost use Rattle.std.specs.List.{AllByRecursion};
ghost use Rattle.dh_tree.specs.Shapes.{IsProgramTable};
ghost use Rattle.dh_net.specs.BankPorts.{port_count, port_of, all_ports, ports_of};
ghost use Rattle.dh_extents.specs.Extents.{IsSmallMemory};

use crate::validity::{kind_width, row_width};
use dh_base::NoMemory;
use dh_extents::measure;
use dh_tree::MemEntry;
use std::alloc::Global;

/// A port of a bank of a memory.
#[derive(Clone, Copy, PartialEq, Eq)]
pub struct Port {
    /// The number of its memory, from 0.
    pub memory: u64,
    /// The number of its bank in the memory, from 0.
    pub bank: u64,
    /// Its number in the bank, from 0.
    pub port: u64,
    /// The rows of the bank.
    pub rows: u64,
    /// Bits of the numbers of the rows, from 1 to 64.
    pub row_width: u8,
    /// Bits of its data, from 1 to 64.
    pub width: u8,
    /// Whether its memory lies outside the module.
    pub outside: bool,
    /// Whether it is the last port of its bank.
    pub is_last: bool,
}

/// The ports of all banks of a memory.
pub fn count_ports(entry: &MemEntry) -> u64
    requires { IsSmallMemory entry.now }
    ensures is { result ≡ port_count entry.now }
    ensures few { result < 1024 }
{
    measure(entry.shape.dims.as_slice()).banks * entry.shape.ports
}

/// A port of the memory with this number; `k` counts over the banks of the memory in order.
#[tactic(auto, using(crate::proofs::RowWidths::row_width_is))]
pub fn memory_port(memory: usize, entry: &MemEntry, k: u64) -> Port
    requires memory { IsSmallMemory entry.now }
    requires there { k < port_count entry.now }
    ensures { result ≡ port_of memory entry.now k }
{
    let rows = measure(entry.shape.dims.as_slice()).rows;
    Port {
        memory: memory as u64,
        bank: k / entry.shape.ports,
        port: k % entry.shape.ports,
        rows,
        row_width: row_width(rows),
        width: kind_width(entry.shape.kind),
        outside: entry.outside,
        is_last: (k + 1) % entry.shape.ports == 0,
    }
}

// Adds the ports of the memory with this number.
fn push_ports(ports: &mut Vec<Port>, memory: usize, entry: &MemEntry) -> Result<(), NoMemory>
    requires { IsSmallMemory entry.now }
    ensures { OnOk result (ports.new.items ≡ ports.old.items ++ all_ports memory entry.now) }
{
    for k in 0..count_ports(entry) {
        ports.push(memory_port(memory, entry, k))?;
    }
    Ok(())
}

/// The ports of a table, in order of memory, bank and port.
///
/// # Errors
///
/// `NoMemory` where an allocation was refused.
pub fn list_ports(alloc: Global, table: &[MemEntry]) -> Result<Vec<Port>, NoMemory>
    requires { AllByRecursion IsSmallMemory table.now }
    ensures { IfOk result (λ ports. ports.items ≡ ports_of table.now) }
{
    let mut ports = Vec::new(alloc);
    for (memory, entry) in table.iter().enumerate() {
        push_ports(&mut ports, memory, entry)?;
    }
    Ok(ports)
}
