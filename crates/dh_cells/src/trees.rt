//! Balanced trees of wires: whether any of many is 1, and the value of the first of many tests that is.

ghost use Rattle.std.specs.Prelude.{[], ◌∷◌, IfOk};
ghost use Rattle.dh_value.specs.Words.{IsWidth};
ghost use Rattle.dh_cells.specs.Settled.{AreWires, IsWire, WireAdded};
ghost use Rattle.dh_cells.specs.ShownValues.{any_shown, first_shown};
ghost use Rattle.dh_cells.specs.FirstTests.{AreTested, FindsFirst, IsTested};

use crate::choices::push_choice;
use crate::circuits::Circuit;
use crate::truths::push_either;
use dh_base::NoMemory;

/// A test, and the value that counts where it is 1. Both go by their wires.
#[derive(Clone, Copy, PartialEq, Eq)]
pub struct Tested {
    /// The test, of one bit.
    pub test: u64,
    /// The value.
    pub value: u64,
}

/// Adds a wire that is 1 where any of these is. Its tree is as deep as the number of wires has bits.
pub fn push_any(circuit: &mut Circuit, wires: &[u64]) -> Result<u64, NoMemory>
    requires { AreWires circuit.old wires.now 1 }
    ensures { WireAdded result circuit.old circuit.new 1 (any_shown wires.now) }
{
    match wires {
        [] => circuit.push_constant(1, 0),
        [wire] => Ok(*wire),
        _ => {
            let (left, right) = wires.split_at(wires.len() / 2);
            let a = push_any(circuit, left)?;
            let b = push_any(circuit, right)?;
            push_either(circuit, a, b)
        }
    }
}

// Whether any of many tests is 1, and where one is the value of the first.
fn push_found(circuit: &mut Circuit, width: u8, tests: &[Tested]) -> Result<Tested, NoMemory>
    requires width { IsWidth width }
    requires wires { AreTested circuit.old tests.now width }
    ensures { IfOk result (λ found. FindsFirst circuit.old circuit.new width tests.now found) }
{
    match tests {
        [] => push_none(circuit, width),
        [tested] => Ok(*tested),
        _ => {
            let (left, right) = tests.split_at(tests.len() / 2);
            let first = push_found(circuit, width, left)?;
            let second = push_found(circuit, width, right)?;
            push_former(circuit, width, first, second)
        }
    }
}

// No test.
fn push_none(circuit: &mut Circuit, width: u8) -> Result<Tested, NoMemory>
    requires { IsWidth width }
    ensures { IfOk result (λ found. FindsFirst circuit.old circuit.new width [] found) }
{
    let test = circuit.push_constant(1, 0)?;
    let value = circuit.push_constant(width, 0)?;
    Ok(Tested { test, value })
}

// The first of two.
fn push_former(
    circuit: &mut Circuit,
    width: u8,
    first: Tested,
    second: Tested,
) -> Result<Tested, NoMemory>
    requires first { IsTested circuit.old first width }
    requires second { IsTested circuit.old second width }
    ensures { IfOk result (λ found. FindsFirst circuit.old circuit.new width
        (first ∷ second ∷ []) found) }
{
    let test = push_either(circuit, first.test, second.test)?;
    let value = push_choice(circuit, width, first.test, first.value, second.value)?;
    Ok(Tested { test, value })
}

/// Adds a wire of this width that shows the value of the first of these tests that is 1, and the default where none
/// is. Without tests it is the default's wire.
pub fn push_first(
    circuit: &mut Circuit,
    width: u8,
    tests: &[Tested],
    default: u64,
) -> Result<u64, NoMemory>
    requires wires { AreTested circuit.old tests.now width }
    requires default { IsWire circuit.old default width }
    ensures { WireAdded result circuit.old circuit.new width (first_shown tests.now default) }
{
    if tests.is_empty() {
        return Ok(default);
    }
    let found = push_found(circuit, width, tests)?;
    push_choice(circuit, width, found.test, found.value, default)
}
