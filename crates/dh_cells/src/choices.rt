//! Values in other kinds, and choices between values.

ghost use Rattle.std.specs.Prelude.{◌<◌};
ghost use Rattle.dh_value.specs.Words.{IsInteger, width_of};
ghost use Rattle.dh_cells.specs.Settled.{IsWire, WireAdded};
ghost use Rattle.dh_cells.specs.ShownValues.{choice_shown, converted_shown, guarded_shown};

use crate::circuits::Circuit;
use dh_base::NoMemory;
use dh_net::CellForm;
use dh_value::{Kind, width};

/// Adds a wire that shows the value of a kind in an integer kind, modulo 2^width. Of one width it is the same wire.
pub fn push_converted(
    circuit: &mut Circuit,
    from: Kind,
    to: Kind,
    wire: u64,
) -> Result<u64, NoMemory>
    requires there { IsWire circuit.old wire (width_of from) }
    requires to { IsInteger to }
    ensures { WireAdded result circuit.old circuit.new (width_of to)
        (converted_shown from to wire) }
{
    let had = width(from);
    let wanted = width(to);
    if wanted == had {
        Ok(wire)
    } else if wanted < had {
        circuit.push(wanted, CellForm::Low { a: wire })
    } else {
        push_extended(circuit, from, to, wire)
    }
}

// The same in a wider kind.
fn push_extended(circuit: &mut Circuit, from: Kind, to: Kind, wire: u64) -> Result<u64, NoMemory>
    requires there { IsWire circuit.old wire (width_of from) }
    requires to { IsInteger to }
    requires wider { width_of from < width_of to }
    ensures { WireAdded result circuit.old circuit.new (width_of to)
        (converted_shown from to wire) }
{
    match from {
        Kind::Signed(_) => circuit.push(width(to), CellForm::Sign { a: wire }),
        Kind::Bool | Kind::Unsigned(_) => circuit.push(width(to), CellForm::Zero { a: wire }),
    }
}

/// Adds a wire of this width that shows `a` where the test is 1, else `b`. Where both are one wire it is that.
pub fn push_choice(
    circuit: &mut Circuit,
    width: u8,
    test: u64,
    a: u64,
    b: u64,
) -> Result<u64, NoMemory>
    requires test { IsWire circuit.old test 1 }
    requires left { IsWire circuit.old a width }
    requires right { IsWire circuit.old b width }
    ensures { WireAdded result circuit.old circuit.new width (choice_shown test a b) }
{
    if a == b {
        Ok(a)
    } else {
        circuit.push(width, CellForm::Mux { c: test, a, b })
    }
}

/// Adds a wire of this width that shows `a` where the guard is 1, else 0.
pub fn push_guarded(circuit: &mut Circuit, width: u8, guard: u64, a: u64) -> Result<u64, NoMemory>
    requires guard { IsWire circuit.old guard 1 }
    requires there { IsWire circuit.old a width }
    ensures { WireAdded result circuit.old circuit.new width (guarded_shown guard a) }
{
    let zero = circuit.push_constant(width, 0)?;
    push_choice(circuit, width, guard, a, zero)
}
