//! The operations of a plan, as they are put down: one list for all blocks, so that the number of
//! an operation is its place.

ghost use Rattle.std.specs.Prelude.{◌≡◌, None, IfOk, if◌then◌else◌};
ghost use Rattle.dh_value.specs.Operations.{binary_of, is_true};
ghost use Rattle.dh_value.specs.Words.{value_of, word_of};
ghost use Rattle.dh_plan.specs.declared.operations.OperationForm.TheVariants.{Constant, Old, Compute, Convert, Select, Set};
ghost use Rattle.dh_expressions.specs.Drafted.{Computes, AddsRangeFault, Pushes, word_shown};
ghost use Rattle.dh_expressions.specs.Shown.{register_as_begun};

use crate::kinds::narrow;
use dh_base::{FaultKind, Items, NoMemory, Place};
use dh_plan::{Operation, OperationForm};
use dh_tree::Kind;
use dh_value::{Op, Word};

/// The operations so far, and the faults that they name.
#[derive(Drop)]
pub struct Draft {
    /// The operations of all blocks.
    pub operations: Vec<Operation>,
    /// What operations with a fault name.
    pub faults: Items<(FaultKind, Place)>,
}

/// Adds an operation. Gives its number.
pub fn push(draft: &mut Draft, guard: Option<u64>, form: OperationForm) -> Result<u64, NoMemory>
    ensures { IfOk result (λ n. Pushes draft.old draft.new n guard form) }
{
    let number = draft.operations.len();
    draft.operations.push(Operation { guard, form })?;
    Ok(number as u64)
}

/// Adds a constant.
pub fn push_constant(draft: &mut Draft, word: Word) -> Result<u64, NoMemory>
    ensures means { IfOk result (λ v. Computes draft.old draft.new v (λ x. word)) }
    ensures made { IfOk result (λ v. Pushes draft.old draft.new v None (Constant word)) }
{
    push(draft, None, OperationForm::Constant { word })
}

/// Adds what a register held as the step began.
pub fn push_old(draft: &mut Draft, register: u64) -> Result<u64, NoMemory>
    ensures means { IfOk result (λ v. Computes draft.old draft.new v (λ x. register_as_begun x
        register)) }
    ensures made { IfOk result (λ v. Pushes draft.old draft.new v None (Old register)) }
{
    push(draft, None, OperationForm::Old { register })
}

/// Adds an operator on two values.
pub fn push_compute(draft: &mut Draft, op: Op, left: u64, right: u64) -> Result<u64, NoMemory>
    ensures means { IfOk result (λ v. Computes draft.old draft.new v (λ x. binary_of op (word_shown x
        left) (word_shown x right))) }
    ensures made { IfOk result (λ v. Pushes draft.old draft.new v None (Compute op left right)) }
{
    push(draft, None, OperationForm::Compute { op, left, right })
}

/// Adds a value in an integer kind.
pub fn push_convert(draft: &mut Draft, inner: u64, to: Kind) -> Result<u64, NoMemory>
    ensures means { IfOk result (λ v. Computes draft.old draft.new v (λ x. word_of to (value_of
        (word_shown x inner)))) }
    ensures made { IfOk result (λ v. Pushes draft.old draft.new v None (Convert inner to)) }
{
    push(draft, None, OperationForm::Convert { inner, to })
}

/// Adds the choice of one of two values.
pub fn push_select(draft: &mut Draft, test: u64, yes: u64, no: u64) -> Result<u64, NoMemory>
    ensures means { IfOk result (λ v. Computes draft.old draft.new v (λ x. if is_true (word_shown x
        test) then word_shown x yes else word_shown x no)) }
    ensures made { IfOk result (λ v. Pushes draft.old draft.new v None (Select test yes no)) }
{
    push(draft, None, OperationForm::Select { test, yes, no })
}

/// Adds the setting of a register.
pub fn push_set(draft: &mut Draft, register: u64, value: u64) -> Result<u64, NoMemory>
    ensures { IfOk result (λ n. Pushes draft.old draft.new n None (Set register value)) }
{
    push(draft, None, OperationForm::Set { register, value })
}

/// Names one more fault: an access at this place that is out of range. Gives its number.
pub fn name_fault(draft: &mut Draft, place: Place) -> Result<u32, NoMemory>
    ensures { IfOk result (λ n. AddsRangeFault draft.old draft.new n place) }
{
    let number = draft.faults.len();
    draft.faults.push((FaultKind::OutOfRange, place))?;
    Ok(narrow(number as u64))
}
