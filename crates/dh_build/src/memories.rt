//! Where the ports of memories stand among the ports of a net.

ghost use Rattle.std.specs.Prelude.{IfOk};
ghost use Rattle.dh_tree.specs.Shapes.{IsProgramTable};
ghost use Rattle.dh_build.specs.MemoryTables.{AreMemoryPorts};

use dh_base::{Items, NoMemory};
use dh_control::MemoryPorts;
use dh_extents::measure;
use dh_net::{count_ports, row_width};
use dh_tree::MemEntry;
use std::alloc::Global;

/// The ports of each memory of a table: where its first one stands, how many each bank has, and the bits of its rows.
#[tactic(auto, using(dh_net::proofs::RowWidths::row_width_is))]
pub fn list_memories(alloc: Global, table: &[MemEntry]) -> Result<Items<MemoryPorts>, NoMemory>
    requires table { IsProgramTable table.now }
    ensures { IfOk result (λ memories. AreMemoryPorts table.now memories) }
{
    let mut memories = Items::new(alloc);
    let mut next = 0;
    for entry in table {
        let rows = measure(entry.shape.dims.as_slice()).rows;
        memories.push(MemoryPorts {
            first: next,
            count: entry.shape.ports,
            bits: row_width(rows),
        })?;
        next += count_ports(entry);
    }
    Ok(memories)
}
