//! Where the ports of a net stand in flat arrays.

ghost use Rattle.std.specs.Prelude.{◌≡◌, ◌<◌, ◌^◌, length, IfOk};
ghost use Rattle.dh_tree.specs.Shapes.{IsProgramTable};
ghost use Rattle.dh_net.specs.BankPorts.{port_number};
ghost use Rattle.dh_sim.specs.Layouts.{IsTableLayout, firsts_of};

use dh_base::NoMemory;
use dh_net::{Port, count_ports, list_ports};
use dh_tree::MemEntry;
use std::alloc::Global;

/// Where the ports of a net stand in flat arrays: a port's place is its number in order of memory, bank and
/// port.
#[derive(Drop)]
pub struct Layout {
    /// The ports, in this order.
    pub ports: Vec<Port>,
    /// The place of the first port of each memory.
    pub firsts: Vec<u64>,
}

// The places of the first ports of the memories of a table.
fn list_firsts(alloc: Global, table: &[MemEntry]) -> Result<Vec<u64>, NoMemory>
    requires table { IsProgramTable table.now }
    ensures { IfOk result (λ v. v.items ≡ firsts_of table.now) }
{
    let mut firsts = Vec::with_capacity(alloc, table.len())?;
    let mut next = 0;
    for entry in table {
        firsts.push(next)?;
        next += count_ports(entry);
    }
    Ok(firsts)
}

impl Layout {
    /// The layout of a net of this table.
    ///
    /// # Errors
    ///
    /// `NoMemory` where an allocation was refused.
    pub fn new(alloc: Global, table: &[MemEntry]) -> Result<Layout, NoMemory>
        requires { IsProgramTable table.now }
        ensures { IfOk result (λ layout. IsTableLayout table.now layout) }
    {
        Ok(Layout {
            ports: list_ports(alloc, table)?,
            firsts: list_firsts(alloc, table)?,
        })
    }

    /// The place of a port.
    pub fn place(&self, table: &[MemEntry], memory: u32, bank: u32, port: u32) -> u64
        requires layout { IsTableLayout table.now self.now }
        requires memory { memory < length table.now }
        requires small { port_number table.now memory bank port < 2 ^ 64 }
        ensures { result ≡ port_number table.now memory bank port }
    {
        let ports = table[memory as usize].shape.ports;
        self.firsts[memory as usize] + (u64::from(bank) * ports + u64::from(port))
    }
}
