//! Wires for what operations give, and the kinds of what they give.

ghost use Rattle.std.specs.Prelude.{◌≡◌, ◌+◌, length};
ghost use Rattle.std.specs.List.{AllByRecursion};
ghost use Rattle.dh_value.specs.Operations.{result_of};
ghost use Rattle.dh_value.specs.Words.{width_of};
ghost use Rattle.dh_meaning.specs.Effects.{kind_in};
ghost use Rattle.dh_plan.specs.Blocks.{kind_at};
ghost use Rattle.dh_plan.specs.Ordered.{IsBetween, form_takes};
ghost use Rattle.dh_plan.specs.PlanKinds.{form_kind, kind_of_value};
ghost use Rattle.dh_plan.specs.SeenPlans.{plan_seen};
ghost use Rattle.dh_cells.specs.Settled.{WireAdded};
ghost use Rattle.dh_datapath.specs.BlockWires.{CanShow, form_wire_bits, operation_bits};
ghost use Rattle.dh_datapath.specs.RegistersShown.{ShowRegisters};
ghost use Rattle.dh_datapath.specs.ValueWires.{AreValueWires, GuardIsThere};

use crate::reads::push_read;
use crate::registers::RegisterWires;
use crate::values::{push_computed, push_selected, push_turned, push_under_guard};
use dh_base::NoMemory;
use dh_cells::Circuit;
use dh_plan::{Operation, OperationForm, Plan};
use dh_tree::MemEntry;
use dh_value::{Kind, Op, width};

// The kind of the elements of a memory.
fn element_kind(table: &[MemEntry], memory: u32) -> Kind
    ensures { result ≡ kind_in table.now memory }
{
    match table.get(memory as usize) {
        Some(entry) => entry.shape.kind,
        None => Kind::Bool,
    }
}

// The kind of a place in a list, Bool where there is none.
fn kind_in_list(kinds: &[Kind], place: u64) -> Kind
    ensures { result ≡ kind_at kinds.now place }
{
    match kinds.get(place as usize) {
        Some(kind) => *kind,
        None => Kind::Bool,
    }
}

// The kind of a value of a block, whose first one has this number.
fn kind_before(first: u64, kinds: &[Kind], number: u64) -> Kind
    ensures { result ≡ kind_of_value first kinds.now number }
{
    kind_in_list(kinds, number.saturating_sub(first))
}

// The kind of what an operator gives, by that of its left operand.
fn result_kind(op: Op, left: Kind) -> Kind
    ensures { result ≡ result_of op left }
{
    match op {
        Op::Add | Op::Sub | Op::Mul | Op::And | Op::Or | Op::Xor | Op::Shl | Op::Shr => left,
        Op::Lt | Op::Gt | Op::Le | Op::Ge | Op::Eq | Op::Ne | Op::Both | Op::Either => Kind::Bool,
    }
}

/// The kind of what a form gives, behind values of these kinds; Bool where it gives nothing.
pub fn kind_given(plan: &Plan, first: u64, kinds: &[Kind], form: &OperationForm) -> Kind
    ensures { result ≡ form_kind plan.now.table plan.now.registers first kinds.now form.now }
{
    match form {
        OperationForm::Constant { word } => word.kind,
        OperationForm::Old { register } => kind_in_list(plan.registers.as_slice(), *register),
        OperationForm::Compute { op, left, right: _ } => {
            result_kind(*op, kind_before(first, kinds, *left))
        }
        OperationForm::Convert { inner: _, to } => *to,
        OperationForm::Select {
            test: _,
            yes,
            no: _,
        } => kind_before(first, kinds, *yes),
        OperationForm::Read { access } => {
            element_kind(plan.table.as_slice(), access.content().memory)
        }
        OperationForm::Check { ok: _, fault: _ } => Kind::Bool,
        OperationForm::Probe {
            access: _,
            fault: _,
        } => Kind::Bool,
        OperationForm::Write {
            access: _,
            value: _,
        } => Kind::Bool,
        OperationForm::Set {
            register: _,
            value: _,
        } => Kind::Bool,
    }
}

/// Adds a wire for what a form gives, behind values of these kinds and wires. What gives nothing shows 0.
pub fn push_form(
    circuit: &mut Circuit,
    plan: &Plan,
    registers: &RegisterWires,
    ports: &[(u32, u32)],
    first: u64,
    kinds: &[Kind],
    wires: &[u64],
    form: &OperationForm,
) -> Result<u64, NoMemory>
    requires table { circuit.old.table ≡ plan.now.table }
    requires registers { ShowRegisters circuit.old plan.now.registers registers.now }
    requires values { AreValueWires circuit.old kinds.now wires.now }
    requires earlier { AllByRecursion (IsBetween first (first + length wires.now))
        (form_takes form.now) }
    requires suits { CanShow (plan_seen plan.now) ports.now first kinds.now form.now }
    ensures { WireAdded result circuit.old circuit.new
        (width_of (form_kind plan.now.table plan.now.registers first kinds.now form.now))
        (form_wire_bits (plan_seen plan.now) registers.now.offset ports.now first kinds.now wires.now
        form.now) }
{
    match form {
        OperationForm::Constant { word } => circuit.push_constant(width(word.kind), word.bits),
        OperationForm::Old { register } => Ok(registers.wires.as_slice()[*register as usize]),
        OperationForm::Compute { op, left, right } => {
            push_computed(circuit, first, kinds, wires, *op, *left, *right)
        }
        OperationForm::Convert { inner, to } => {
            push_turned(circuit, first, kinds, wires, *inner, *to)
        }
        OperationForm::Select { test, yes, no } => {
            push_selected(circuit, first, kinds, wires, *test, *yes, *no)
        }
        OperationForm::Read { access } => {
            let access = access.content();
            let element = width(element_kind(plan.table.as_slice(), access.memory));
            push_read(circuit, element, ports, first, kinds, wires, access)
        }
        OperationForm::Check { ok: _, fault: _ } => circuit.push_constant(1, 0),
        OperationForm::Probe {
            access: _,
            fault: _,
        } => circuit.push_constant(1, 0),
        OperationForm::Write {
            access: _,
            value: _,
        } => circuit.push_constant(1, 0),
        OperationForm::Set {
            register: _,
            value: _,
        } => circuit.push_constant(1, 0),
    }
}

/// Adds a wire for the value of an operation, behind values of these kinds and wires.
pub fn push_operation(
    circuit: &mut Circuit,
    plan: &Plan,
    registers: &RegisterWires,
    ports: &[(u32, u32)],
    first: u64,
    kinds: &[Kind],
    wires: &[u64],
    operation: &Operation,
) -> Result<u64, NoMemory>
    requires table { circuit.old.table ≡ plan.now.table }
    requires registers { ShowRegisters circuit.old plan.now.registers registers.now }
    requires values { AreValueWires circuit.old kinds.now wires.now }
    requires guard { GuardIsThere first kinds.now wires.now operation.now.guard }
    requires earlier { AllByRecursion (IsBetween first (first + length wires.now))
        (form_takes operation.now.form) }
    requires suits { CanShow (plan_seen plan.now) ports.now first kinds.now operation.now.form }
    ensures { WireAdded result circuit.old circuit.new
        (width_of (form_kind plan.now.table plan.now.registers first kinds.now operation.now.form))
        (operation_bits (plan_seen plan.now) registers.now.offset ports.now first kinds.now
        wires.now
        operation.now) }
{
    let form = &operation.form;
    let of = kind_given(plan, first, kinds, form);
    let wire = push_form(circuit, plan, registers, ports, first, kinds, wires, form)?;
    push_under_guard(circuit, first, kinds, wires, operation.guard, of, wire)
}
