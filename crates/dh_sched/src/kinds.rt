//! What sort of operation a form is: a read, a multiplication, an operator.

ghost use Rattle.std.specs.Prelude.{◌≡◌, ◌+◌, ◌<◌, ◌^◌};
ghost use Rattle.dh_plan.specs.LegalSchedules as definitions;
ghost use Rattle.dh_sched.specs.Sorts.{is_times};

use dh_plan::OperationForm;
use dh_value::Op;

/// Whether a form reads a memory; its value is there one clock later.
pub fn is_read(form: &OperationForm) -> bool
    ensures { result ≡ definitions.is_read form.now }
{
    match form {
        OperationForm::Read { .. } => true,
        OperationForm::Constant { .. }
        | OperationForm::Old { .. }
        | OperationForm::Compute { .. }
        | OperationForm::Convert { .. }
        | OperationForm::Select { .. }
        | OperationForm::Check { .. }
        | OperationForm::Probe { .. }
        | OperationForm::Write { .. }
        | OperationForm::Set { .. } => false,
    }
}

/// Whether a form is a multiplication.
pub fn is_product(form: &OperationForm) -> bool
    ensures { result ≡ definitions.is_product form.now }
{
    match form {
        OperationForm::Compute { op, .. } => is_times(*op),
        OperationForm::Constant { .. }
        | OperationForm::Old { .. }
        | OperationForm::Convert { .. }
        | OperationForm::Select { .. }
        | OperationForm::Check { .. }
        | OperationForm::Probe { .. }
        | OperationForm::Read { .. }
        | OperationForm::Write { .. }
        | OperationForm::Set { .. } => false,
    }
}

// Whether an operator multiplies.
fn is_times(op: Op) -> bool
    ensures { result ≡ is_times op }
{
    match op {
        Op::Mul => true,
        Op::Add
        | Op::Sub
        | Op::And
        | Op::Or
        | Op::Xor
        | Op::Shl
        | Op::Shr
        | Op::Lt
        | Op::Gt
        | Op::Le
        | Op::Ge
        | Op::Eq
        | Op::Ne
        | Op::Both
        | Op::Either => false,
    }
}

/// Whether a form is an operator: one of those that a limit on chains counts.
pub fn is_operator(form: &OperationForm) -> bool
    ensures { result ≡ definitions.is_operator form.now }
{
    match form {
        OperationForm::Compute { .. } | OperationForm::Select { .. } => true,
        OperationForm::Constant { .. }
        | OperationForm::Old { .. }
        | OperationForm::Convert { .. }
        | OperationForm::Check { .. }
        | OperationForm::Probe { .. }
        | OperationForm::Read { .. }
        | OperationForm::Write { .. }
        | OperationForm::Set { .. } => false,
    }
}

/// The clock at which the value of a form is there that stands at a clock.
pub fn there_at(form: &OperationForm, clock: u128) -> u128
    requires { clock + 1 < 2 ^ 128 }
    ensures { result ≡ definitions.there_at form.now clock }
{
    if is_read(form) { clock + 1 } else { clock }
}
