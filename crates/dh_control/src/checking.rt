//! The faults of operations, as tests.

ghost use Rattle.std.specs.Prelude.{◌≡◌, ◌∷◌, [], OnOk};
ghost use Rattle.std.specs.List.{AllByRecursion};
ghost use Rattle.dh_cells.specs.Settled.{Adds, IsWire};
ghost use Rattle.dh_control.specs.FaultTests.{CheckSuits, ChecksAdded};

use crate::setting::push_guard;
use dh_base::{Items, NoMemory};
use dh_cells::{Circuit, Tested, push_both, push_not};
use dh_plan::{Operation, OperationForm};

/// Adds the test of a check: whether its block is active, its guard holds, and its value is false.
fn push_check(
    circuit: &mut Circuit,
    active: u64,
    wires: &[u64],
    operation: &Operation,
    tests: &mut Items<Tested>,
) -> Result<(), NoMemory>
    requires active { IsWire circuit.old active 1 }
    requires suits { CheckSuits circuit.old wires.now operation.now }
    ensures { OnOk result (ChecksAdded circuit.old circuit.new active wires.now
        (operation.now ∷ []) tests.old tests.new) }
{
    match &operation.form {
        OperationForm::Check { ok, fault } => {
            let asked = push_guard(circuit, active, wires, operation.guard)?;
            let wrong = push_not(circuit, wires[*ok as usize])?;
            let test = push_both(circuit, asked, wrong)?;
            let value = circuit.push_constant(32, *fault as u64 + 1)?;
            tests.push(Tested { test, value })?;
            Ok(())
        }
        OperationForm::Probe { .. } => unreachable!(),
        OperationForm::Constant { .. } => Ok(()),
        OperationForm::Old { .. } => Ok(()),
        OperationForm::Compute { .. } => Ok(()),
        OperationForm::Convert { .. } => Ok(()),
        OperationForm::Select { .. } => Ok(()),
        OperationForm::Read { .. } => Ok(()),
        OperationForm::Write { .. } => Ok(()),
        OperationForm::Set { .. } => Ok(()),
    }
}

/// Adds the tests of the checks of operations, in order.
pub fn push_checks(
    circuit: &mut Circuit,
    active: u64,
    wires: &[u64],
    operations: &[Operation],
    tests: &mut Items<Tested>,
) -> Result<(), NoMemory>
    requires active { IsWire circuit.old active 1 }
    requires suits { AllByRecursion (CheckSuits circuit.old wires.now) operations.now }
    ensures { OnOk result (ChecksAdded circuit.old circuit.new active wires.now
        operations.now tests.old tests.new) }
{
    for operation in operations {
        push_check(circuit, active, wires, operation, tests)?;
    }
    Ok(())
}
