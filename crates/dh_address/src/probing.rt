//! Whether an operation takes the value of a probe, which is false. No pass makes such operations, but they would do.

ghost use Rattle.std.specs.Prelude.{◌≡◌};
ghost use Rattle.std.specs.List.{list_any};
ghost use Rattle.dh_plan.specs.Ordered.{form_takes, offsets_taken, one_or_none, reach_takes};
ghost use Rattle.dh_address.specs.Pieces.{any_takes_probe, is_of_probe, takes_probe};

use crate::renumbering::place_from;
use dh_plan::{Operation, OperationForm, Reach, ReachStep};

/// Whether a value is that of a probe.
fn is_of_probe(operations: &[Operation], first: u128, value: u64) -> bool
    ensures { result ≡ is_of_probe operations.now first value }
{
    match operations.get(place_from(first, value)) {
        Some(operation) => match &operation.form {
            OperationForm::Probe { .. } => true,
            _ => false,
        },
        None => false,
    }
}

/// Whether a value that may lack is.
fn maybe_of_probe(operations: &[Operation], first: u128, value: Option<u64>) -> bool
    ensures { result ≡ list_any (is_of_probe operations.now first) (one_or_none value) }
{
    match value {
        Some(value) => is_of_probe(operations, first, value),
        None => false,
    }
}

/// Whether one of these values is.
fn some_of_probe(operations: &[Operation], first: u128, values: &[u64]) -> bool
    ensures { result ≡ list_any (is_of_probe operations.now first) values.now }
{
    for value in values {
        if is_of_probe(operations, first, *value) {
            return true;
        }
    }
    false
}

/// Whether one of the offsets of views is.
fn offset_of_probe(operations: &[Operation], first: u128, steps: &[ReachStep]) -> bool
    ensures { result ≡ list_any (is_of_probe operations.now first) (offsets_taken steps.now) }
{
    for step in steps {
        if some_of_probe(operations, first, step.offsets.as_slice()) {
            return true;
        }
    }
    false
}

/// Whether one of the values is that an access takes.
fn reach_of_probe(operations: &[Operation], first: u128, reach: &Reach) -> bool
    ensures { result ≡ list_any (is_of_probe operations.now first) (reach_takes reach.now) }
{
    some_of_probe(operations, first, reach.indices.as_slice())
        || offset_of_probe(operations, first, reach.steps.as_slice())
        || maybe_of_probe(operations, first, reach.select)
        || maybe_of_probe(operations, first, reach.row)
}

/// Whether one of the values is that a form takes.
fn form_of_probe(operations: &[Operation], first: u128, form: &OperationForm) -> bool
    ensures { result ≡ list_any (is_of_probe operations.now first) (form_takes form.now) }
{
    match form {
        OperationForm::Constant { .. } | OperationForm::Old { .. } => false,
        OperationForm::Compute { left, right, .. } => {
            is_of_probe(operations, first, *left) || is_of_probe(operations, first, *right)
        }
        OperationForm::Convert { inner, .. } => is_of_probe(operations, first, *inner),
        OperationForm::Select { test, yes, no } => {
            is_of_probe(operations, first, *test)
                || is_of_probe(operations, first, *yes)
                || is_of_probe(operations, first, *no)
        }
        OperationForm::Check { ok, .. } => is_of_probe(operations, first, *ok),
        OperationForm::Probe { access, .. } => reach_of_probe(operations, first, access.content()),
        OperationForm::Read { access } => reach_of_probe(operations, first, access.content()),
        OperationForm::Write { access, value } => {
            is_of_probe(operations, first, *value)
                || reach_of_probe(operations, first, access.content())
        }
        OperationForm::Set { value, .. } => is_of_probe(operations, first, *value),
    }
}

/// Whether an operation takes the value of a probe.
fn takes_probe(operations: &[Operation], first: u128, operation: &Operation) -> bool
    ensures { result ≡ takes_probe operations.now first operation.now }
{
    maybe_of_probe(operations, first, operation.guard)
        || form_of_probe(operations, first, &operation.form)
}

/// Whether some operation of a block does, whose first one has the number `first`.
pub fn any_takes_probe(operations: &[Operation], first: u128) -> bool
    ensures { result ≡ any_takes_probe operations.now first }
{
    for operation in operations {
        if takes_probe(operations, first, operation) {
            return true;
        }
    }
    false
}
