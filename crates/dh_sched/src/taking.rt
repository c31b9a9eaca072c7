//! The values that an operation takes, as one list. The walks over what is taken go over that list.

ghost use Rattle.std.specs.Prelude.{◌≡◌, ◌∷◌, [], ◌++◌, OnOk};
ghost use Rattle.dh_plan.specs.Ordered.{one_or_none, offsets_taken, reach_takes, form_takes, operation_takes};

use dh_base::NoMemory;
use dh_plan::{Operation, OperationForm, Reach, ReachStep};

/// Puts the values that an operation takes into a list, in place of what that held.
pub fn note_taken(taken: &mut Vec<u64>, operation: &Operation) -> Result<(), NoMemory>
    ensures { OnOk result (taken.new.items ≡ operation_takes operation.now) }
{
    taken.clear();
    add_optional(taken, operation.guard)?;
    add_form(taken, &operation.form)
}

// Adds the values that a form takes.
fn add_form(taken: &mut Vec<u64>, form: &OperationForm) -> Result<(), NoMemory>
    ensures { OnOk result (taken.new.items ≡ taken.old.items ++ form_takes form.now) }
{
    match form {
        OperationForm::Constant { .. } | OperationForm::Old { .. } => Ok(()),
        OperationForm::Compute { left, right, .. } => add_two(taken, *left, *right),
        OperationForm::Convert { inner, .. } => add(taken, *inner),
        OperationForm::Select { test, yes, no } => {
            add(taken, *test)?;
            add_two(taken, *yes, *no)
        }
        OperationForm::Check { ok, .. } => add(taken, *ok),
        OperationForm::Probe { access, .. } => add_reach(taken, access.content()),
        OperationForm::Read { access } => add_reach(taken, access.content()),
        OperationForm::Write { access, value } => {
            add(taken, *value)?;
            add_reach(taken, access.content())
        }
        OperationForm::Set { value, .. } => add(taken, *value),
    }
}

// Adds the values that say which element an access names.
fn add_reach(taken: &mut Vec<u64>, access: &Reach) -> Result<(), NoMemory>
    ensures { OnOk result (taken.new.items ≡ taken.old.items ++ reach_takes access.now) }
{
    add_all(taken, access.indices.as_slice())?;
    add_offsets(taken, access.steps.as_slice())?;
    add_optional(taken, access.select)?;
    add_optional(taken, access.row)
}

// Adds the values of the offsets of views.
fn add_offsets(taken: &mut Vec<u64>, steps: &[ReachStep]) -> Result<(), NoMemory>
    ensures { OnOk result (taken.new.items ≡ taken.old.items ++ offsets_taken steps.now) }
{
    for step in steps {
        add_all(taken, step.offsets.as_slice())?;
    }
    Ok(())
}

// Adds values.
fn add_all(taken: &mut Vec<u64>, values: &[u64]) -> Result<(), NoMemory>
    ensures { OnOk result (taken.new.items ≡ taken.old.items ++ values.now) }
{
    taken.extend_from_slice(values)?;
    Ok(())
}

// Adds a value, where there is one.
fn add_optional(taken: &mut Vec<u64>, value: Option<u64>) -> Result<(), NoMemory>
    ensures { OnOk result (taken.new.items ≡ taken.old.items ++ one_or_none value) }
{
    match value {
        Some(value) => add(taken, value),
        None => Ok(()),
    }
}

// Adds two values.
fn add_two(taken: &mut Vec<u64>, left: u64, right: u64) -> Result<(), NoMemory>
    ensures { OnOk result (taken.new.items ≡ taken.old.items ++ left ∷ right ∷ []) }
{
    add(taken, left)?;
    add(taken, right)
}

// Adds a value.
fn add(taken: &mut Vec<u64>, value: u64) -> Result<(), NoMemory>
    ensures { OnOk result (taken.new.items ≡ taken.old.items ++ value ∷ []) }
{
    taken.push(value)?;
    Ok(())
}
