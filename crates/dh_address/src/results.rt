//! The kinds of what operations give.

ghost use Rattle.std.specs.Prelude.{◌≡◌};
ghost use Rattle.dh_value.specs.Operations.{result_of};
ghost use Rattle.dh_meaning.specs.Effects.{kind_in};
ghost use Rattle.dh_plan.specs.Blocks.{kind_at};
ghost use Rattle.dh_plan.specs.PlanKinds.{form_kind};

use crate::renumbering::Renumbering;
use dh_plan::OperationForm;
use dh_tree::MemEntry;
use dh_value::{Kind, Op};

/// The kind of what an operator gives, by that of its left operand.
fn result_kind(op: Op, left: Kind) -> Kind
    ensures { result ≡ result_of op left }
{
    match op {
        Op::Add | Op::Sub | Op::Mul | Op::And | Op::Or | Op::Xor | Op::Shl | Op::Shr => left,
        Op::Lt | Op::Gt | Op::Le | Op::Ge | Op::Eq | Op::Ne | Op::Both | Op::Either => Kind::Bool,
    }
}

/// The kind of a memory's elements; Bool where there is no such memory.
fn element_kind(table: &[MemEntry], memory: u32) -> Kind
    ensures { result ≡ kind_in table.now memory }
{
    match table.get(memory as usize) {
        Some(entry) => entry.shape.kind,
        None => Kind::Bool,
    }
}

/// The kind of a register; Bool where there is no such register.
fn register_kind(registers: &[Kind], register: u64) -> Kind
    ensures { result ≡ kind_at registers.now register }
{
    match registers.get(register as usize) {
        Some(kind) => *kind,
        None => Kind::Bool,
    }
}

/// The kind of what a form gives; Bool of one that gives nothing.
pub fn kind_given(
    table: &[MemEntry],
    registers: &[Kind],
    known: &Renumbering,
    form: &OperationForm,
) -> Kind
    ensures { result
        ≡ form_kind table.now registers.now known.now.first known.now.kinds form.now }
{
    match form {
        OperationForm::Constant { word } => word.kind,
        OperationForm::Old { register } => register_kind(registers, *register),
        OperationForm::Compute { op, left, .. } => result_kind(*op, known.kind(*left)),
        OperationForm::Convert { to, .. } => *to,
        OperationForm::Select { yes, .. } => known.kind(*yes),
        OperationForm::Check { .. } => Kind::Bool,
        OperationForm::Probe { .. } => Kind::Bool,
        OperationForm::Read { access } => element_kind(table, access.content().memory),
        OperationForm::Write { .. } => Kind::Bool,
        OperationForm::Set { .. } => Kind::Bool,
    }
}
