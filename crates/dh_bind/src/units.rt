//! Which multiplier each multiplication uses: the number of those before it in its block, in its clock. One pass.

ghost use Rattle.std.specs.Prelude.{◌≡◌, ℕ, ◌+◌, ◌<◌, ◌^◌, true, IfOk, OnOk, length};
ghost use Rattle.dh_plan.specs.LegalSchedules.{is_product};
ghost use Rattle.dh_plan.specs.Passes.{timing_seen};
ghost use Rattle.dh_plan.specs.PlainPlans.{operation_count};
ghost use Rattle.dh_plan.specs.SeenPlans.{plan_seen};
ghost use Rattle.dh_bind.specs.Units.{AreUnitNumbers, BlockUnits, CountsUnit, counted_at};

use dh_base::{Items, NoMemory};
use dh_plan::{Operation, OperationForm, Plan, Schedule};
use dh_value::Op;
use std::alloc::Global;
use std::collections::BTreeMap;

/// Whether an operator multiplies.
fn is_times(op: Op) -> bool
    ensures { (left right : ℕ) → result ≡ is_product (OperationForm.Compute op left right) }
{
    match op {
        Op::Mul => true,
        Op::Add => false,
        Op::Sub => false,
        Op::And => false,
        Op::Or => false,
        Op::Xor => false,
        Op::Shl => false,
        Op::Shr => false,
        Op::Lt => false,
        Op::Gt => false,
        Op::Le => false,
        Op::Ge => false,
        Op::Eq => false,
        Op::Ne => false,
        Op::Both => false,
        Op::Either => false,
    }
}

/// Whether an operation is a multiplication.
fn multiplies(operation: &Operation) -> bool
    ensures { result ≡ is_product operation.now.form }
{
    match &operation.form {
        OperationForm::Compute {
            op,
            left: _,
            right: _,
        } => is_times(*op),
        OperationForm::Read { access: _ } => false,
        OperationForm::Write {
            access: _,
            value: _,
        } => false,
        OperationForm::Constant { word: _ } => false,
        OperationForm::Old { register: _ } => false,
        OperationForm::Convert { inner: _, to: _ } => false,
        OperationForm::Select {
            test: _,
            yes: _,
            no: _,
        } => false,
        OperationForm::Check { ok: _, fault: _ } => false,
        OperationForm::Probe {
            access: _,
            fault: _,
        } => false,
        OperationForm::Set {
            register: _,
            value: _,
        } => false,
    }
}

/// How many were counted at a clock, which is then one more.
fn count_one(counts: &mut BTreeMap<u128, u64>, clock: u128) -> Result<u64, NoMemory>
    requires { counted_at counts.old clock + 1 < 2 ^ 64 }
    ensures number { IfOk result (λ n. n ≡ counted_at counts.old clock) }
    ensures more { OnOk result (counted_at counts.new clock ≡ counted_at counts.old clock + 1) }
    ensures others { OnOk result ((q : ℕ) → (q ≡ clock → ⊥)
        → counted_at counts.new q ≡ counted_at counts.old q) }
{
    let count = counts.get(&clock).copied().unwrap_or(0);
    counts.insert(clock, count + 1)?;
    Ok(count)
}

/// The multiplier of an operation at a clock, which is counted; 0 of what is no multiplication.
fn unit_for(
    counts: &mut BTreeMap<u128, u64>,
    operation: &Operation,
    clock: u128,
) -> Result<u64, NoMemory>
    requires { counted_at counts.old clock + 1 < 2 ^ 64 }
    ensures number { IfOk result
        (λ n. is_product operation.now.form ≡ true → n ≡ counted_at counts.old clock) }
    ensures counted { OnOk result (CountsUnit counts.old counts.new operation.now.form clock) }
{
    if multiplies(operation) {
        count_one(counts, clock)
    } else {
        Ok(0)
    }
}

/// Adds the multipliers of a block's operations, which stand at these clocks.
fn push_units(
    alloc: Global,
    units: &mut Items<u64>,
    operations: &[Operation],
    clocks: &[u128],
) -> Result<(), NoMemory>
    requires { length clocks.now ≡ length operations.now }
    ensures { OnOk result
        (BlockUnits operations.now clocks.now (length operations.now) units.old units.new) }
{
    let mut counts: BTreeMap<u128, u64> = BTreeMap::new(alloc);
    for i in 0..operations.len() {
        let unit = unit_for(&mut counts, &operations[i], clocks[i])?;
        units.push(unit)?;
    }
    Ok(())
}

/// The multipliers of a plan's operations under a schedule.
pub fn units_of(alloc: Global, plan: &Plan, schedule: &Schedule) -> Result<Items<u64>, NoMemory>
    requires { length schedule.now.clock_of ≡ operation_count (plan_seen plan.now) }
    ensures { IfOk result (λ units. AreUnitNumbers (plan_seen plan.now) (timing_seen schedule.now)
        (length plan.now.blocks) units) }
{
    let mut rest = schedule.clock_of.as_slice();
    let mut units = Items::new(alloc);
    for block in plan.blocks.as_slice() {
        let operations = block.operations.as_slice();
        let parts = rest.split_at(operations.len());
        push_units(alloc, &mut units, operations, parts.0)?;
        rest = parts.1;
    }
    Ok(units)
}
