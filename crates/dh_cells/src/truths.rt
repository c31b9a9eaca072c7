//! Wires of one bit as truths, and tests and counts of numbers.

ghost use Rattle.std.specs.Prelude.{◌^◌, ◌<◌};
ghost use Rattle.dh_cells.specs.Settled.{IsWire, WireAdded};
ghost use Rattle.dh_cells.specs.ShownValues.{both_shown, either_shown, match_shown, more_shown, not_shown};

use crate::circuits::Circuit;
use dh_base::NoMemory;
use dh_net::CellForm;

/// Adds a wire that is 1 where the other is not.
pub fn push_not(circuit: &mut Circuit, a: u64) -> Result<u64, NoMemory>
    requires { IsWire circuit.old a 1 }
    ensures { WireAdded result circuit.old circuit.new 1 (not_shown a) }
{
    let zero = circuit.push_constant(1, 0)?;
    circuit.push(1, CellForm::Eq { a, b: zero })
}

/// Adds a wire that is 1 where both are.
pub fn push_both(circuit: &mut Circuit, a: u64, b: u64) -> Result<u64, NoMemory>
    requires left { IsWire circuit.old a 1 }
    requires right { IsWire circuit.old b 1 }
    ensures { WireAdded result circuit.old circuit.new 1 (both_shown a b) }
{
    circuit.push(1, CellForm::And { a, b })
}

/// Adds a wire that is 1 where one of them is.
pub fn push_either(circuit: &mut Circuit, a: u64, b: u64) -> Result<u64, NoMemory>
    requires left { IsWire circuit.old a 1 }
    requires right { IsWire circuit.old b 1 }
    ensures { WireAdded result circuit.old circuit.new 1 (either_shown a b) }
{
    circuit.push(1, CellForm::Or { a, b })
}

/// Adds a wire that is 1 where a wire of this width shows the number.
pub fn push_match(circuit: &mut Circuit, width: u8, wire: u64, number: u64) -> Result<u64, NoMemory>
    requires there { IsWire circuit.old wire width }
    requires fits { number < 2 ^ width }
    ensures { WireAdded result circuit.old circuit.new 1 (match_shown wire number) }
{
    let right = circuit.push_constant(width, number)?;
    circuit.push(1, CellForm::Eq { a: wire, b: right })
}

/// Adds a wire that shows one more than a wire of this width, modulo 2^width.
pub fn push_more(circuit: &mut Circuit, width: u8, wire: u64) -> Result<u64, NoMemory>
    requires { IsWire circuit.old wire width }
    ensures { WireAdded result circuit.old circuit.new width (more_shown width wire) }
{
    let one = circuit.push_constant(width, 1)?;
    circuit.push(width, CellForm::Add { a: wire, b: one })
}
