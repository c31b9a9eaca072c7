//! Values at the end of a step: each chosen by the moves of it.

ghost use Rattle.std.specs.Prelude.{IfOk};
ghost use Rattle.dh_control.specs.SizedWires.{WiresAreSized};
ghost use Rattle.dh_control.specs.MovedValues.{AreMoves, MovesMade};

use crate::gathering::{Keyed, gather};
use dh_base::{Items, NoMemory};
use dh_cells::{Circuit, Tested, push_first};
use std::alloc::Global;

/// Adds a wire for each value as it is after moves; without a move it is the same wire.
pub fn push_moved(
    alloc: Global,
    circuit: &mut Circuit,
    widths: &[u8],
    wires: &[u64],
    moves: &[Keyed<Tested>],
) -> Result<Items<u64>, NoMemory>
    requires wires { WiresAreSized circuit.old widths.now wires.now }
    requires moves { AreMoves circuit.old widths.now moves.now }
    ensures { IfOk result
        (λ news. MovesMade circuit.old circuit.new widths.now wires.now moves.now news) }
{
    let lists = gather(alloc, wires.len(), moves)?;
    let lists = lists.as_slice();
    let mut news = Items::new(alloc);
    for i in 0..wires.len() {
        let wire = push_first(circuit, widths[i], lists[i].as_slice(), wires[i])?;
        news.push(wire)?;
    }
    Ok(news)
}
