//! What operations set registers to, as moves.

ghost use Rattle.std.specs.Prelude.{◌≡◌, ◌<◌, ◌∷◌, [], length, slice_index, IfOk, OnOk};
ghost use Rattle.std.specs.List.{AllByRecursion};
ghost use Rattle.dh_cells.specs.Settled.{Adds, IsWire, WireAdded};
ghost use Rattle.dh_control.specs.OnWires.{on_both_shown};
ghost use Rattle.dh_control.specs.RegisterSets.{SetSuits, SetsAdded};
ghost use Rattle.dh_control.specs.ValuesShown.{GuardHasWire};

use crate::gathering::Keyed;
use dh_base::{Items, NoMemory};
use dh_cells::{Circuit, Tested, push_both};
use dh_plan::{Operation, OperationForm};

/// Adds a wire that is 1 where another is and the guard holds; without a guard it is the same wire.
pub fn push_guard(
    circuit: &mut Circuit,
    test: u64,
    wires: &[u64],
    guard: Option<u64>,
) -> Result<u64, NoMemory>
    requires test { IsWire circuit.old test 1 }
    requires guard { GuardHasWire circuit.old wires.now guard }
    ensures { WireAdded result circuit.old circuit.new 1 (on_both_shown test wires.now guard) }
{
    match guard {
        None => Ok(test),
        Some(value) => push_both(circuit, test, wires[value as usize]),
    }
}

/// Adds the move of what an operation sets.
fn push_set(
    circuit: &mut Circuit,
    widths: &[u8],
    commit: u64,
    wires: &[u64],
    operation: &Operation,
    moves: &mut Items<Keyed<Tested>>,
) -> Result<(), NoMemory>
    requires commit { IsWire circuit.old commit 1 }
    requires suits { SetSuits circuit.old widths.now wires.now operation.now }
    ensures { OnOk result (SetsAdded circuit.old circuit.new widths.now commit wires.now
        (operation.now ∷ []) moves.old moves.new) }
{
    match &operation.form {
        OperationForm::Set { register, value } => {
            let test = push_guard(circuit, commit, wires, operation.guard)?;
            moves.push(Keyed {
                key: *register,
                item: Tested {
                    test,
                    value: wires[*value as usize],
                },
            })?;
            Ok(())
        }
        OperationForm::Constant { .. } => Ok(()),
        OperationForm::Old { .. } => Ok(()),
        OperationForm::Compute { .. } => Ok(()),
        OperationForm::Convert { .. } => Ok(()),
        OperationForm::Select { .. } => Ok(()),
        OperationForm::Check { .. } => Ok(()),
        OperationForm::Probe { .. } => Ok(()),
        OperationForm::Read { .. } => Ok(()),
        OperationForm::Write { .. } => Ok(()),
    }
}

/// Adds the moves of what operations set, those of later ones first.
pub fn push_sets(
    circuit: &mut Circuit,
    widths: &[u8],
    commit: u64,
    wires: &[u64],
    operations: &[Operation],
    moves: &mut Items<Keyed<Tested>>,
) -> Result<(), NoMemory>
    requires commit { IsWire circuit.old commit 1 }
    requires suits { AllByRecursion (SetSuits circuit.old widths.now wires.now) operations.now }
    ensures { OnOk result (SetsAdded circuit.old circuit.new widths.now commit wires.now
        operations.now moves.old moves.new) }
{
    for i in (0..operations.len()).rev() {
        push_set(circuit, widths, commit, wires, &operations[i], moves)?;
    }
    Ok(())
}
