//! Tests of numbers on wires.

ghost use Rattle.std.specs.Prelude.{◌<◌, ◌^◌, ◌↔◌, IsTrue};
ghost use Rattle.dh_value.specs.Words.{IsWidth};
ghost use Rattle.dh_cells.specs.Settled.{IsWire, WireAdded};
ghost use Rattle.dh_cells.specs.ShownValues.{match_shown};

use dh_base::NoMemory;
use dh_cells::{Circuit, push_match};

/// Whether a number has no more bits than a width.
pub fn fits_width(width: u8, number: u64) -> bool
    requires { IsWidth width }
    ensures { IsTrue result ↔ (number < 2 ^ width) }
{
    width == 64 || number < 1 << width
}

/// Adds a wire that is 1 where a wire of a width shows a number, which may have more bits.
pub fn push_number_test(
    circuit: &mut Circuit,
    width: u8,
    wire: u64,
    number: u64,
) -> Result<u64, NoMemory>
    requires { IsWire circuit.old wire width }
    ensures { WireAdded result circuit.old circuit.new 1 (match_shown wire number) }
{
    if fits_width(width, number) {
        push_match(circuit, width, wire, number)
    } else {
        circuit.push_constant(1, 0)
    }
}
