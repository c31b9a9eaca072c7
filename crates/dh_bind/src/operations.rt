//! What operations use.

ghost use Rattle.std.specs.Prelude.{◌≡◌, ◌≤◌, ◌^◌, option_copied};
ghost use Rattle.dh_plan.specs.SoundPlans.{use_in};
ghost use Rattle.dh_bind.specs.Drafts.{all_operations, banks_width, operations_rows, use_rows, use_width, operations_width};

use dh_plan::{Operation, OperationForm, PlanBlock, Reach};

/// What an operation reads or writes; None where it does neither.
pub fn use_of(operation: &Operation) -> Option<&Reach>
    ensures { option_copied result ≡ use_in operation.now.form }
{
    match &operation.form {
        OperationForm::Read { access } => Some(access.content()),
        OperationForm::Write { access, value: _ } => Some(access.content()),
        OperationForm::Constant { word: _ } => None,
        OperationForm::Old { register: _ } => None,
        OperationForm::Compute {
            op: _,
            left: _,
            right: _,
        } => None,
        OperationForm::Convert { inner: _, to: _ } => None,
        OperationForm::Select {
            test: _,
            yes: _,
            no: _,
        } => None,
        OperationForm::Check { ok: _, fault: _ } => None,
        OperationForm::Probe {
            access: _,
            fault: _,
        } => None,
        OperationForm::Set {
            register: _,
            value: _,
        } => None,
    }
}

/// One more than the access of an operation; 0 where it uses none.
fn row_after(operation: &Operation) -> usize
    ensures number { result ≡ use_rows (use_in operation.now.form) }
    ensures fits { result ≤ 2 ^ 32 }
{
    match use_of(operation) {
        Some(reach) => reach.access as usize + 1,
        None => 0,
    }
}

/// One more than the greatest access of operations; 0 where they use none.
fn rows_in(operations: &[Operation]) -> usize
    ensures number { result ≡ operations_rows operations.now }
    ensures fits { result ≤ 2 ^ 32 }
{
    let mut rows = 0usize;
    for operation in operations {
        rows = rows.max(row_after(operation));
    }
    rows
}

/// The same of the operations of blocks.
pub fn rows_needed(blocks: &[PlanBlock]) -> usize
    ensures number { result ≡ operations_rows (all_operations blocks.now) }
    ensures fits { result ≤ 2 ^ 32 }
{
    let mut rows = 0usize;
    for block in blocks {
        rows = rows.max(rows_in(block.operations.as_slice()));
    }
    rows
}

/// One more than the greatest bank that is listed; 0 where none is.
fn width_listed(banks: &[(u32, u32)]) -> usize
    ensures { result ≡ banks_width banks.now }
{
    let mut wide = 0usize;
    for listed in banks {
        wide = wide.max(listed.0 as usize + 1);
    }
    wide
}

/// The same of the banks of an operation.
fn width_at(operation: &Operation) -> usize
    ensures { result ≡ use_width (use_in operation.now.form) }
{
    match use_of(operation) {
        Some(reach) => width_listed(reach.banks.as_slice()),
        None => 0,
    }
}

/// The same of operations.
fn width_among(operations: &[Operation]) -> usize
    ensures { result ≡ operations_width operations.now }
{
    let mut wide = 0usize;
    for operation in operations {
        wide = wide.max(width_at(operation));
    }
    wide
}

/// The same of the operations of blocks.
pub fn width_needed(blocks: &[PlanBlock]) -> usize
    ensures { result ≡ operations_width (all_operations blocks.now) }
{
    let mut wide = 0usize;
    for block in blocks {
        wide = wide.max(width_among(block.operations.as_slice()));
    }
    wide
}
