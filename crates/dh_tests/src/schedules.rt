//! Which schedules of a plan made by hand are legal: three operators, two of them multiplications that do not need
//! each other, and a sum of both.

use crate::comparing::holds;
use dh_base::{Items, NoMemory};
use dh_plan::{Limits, Meets, Node, Operation, OperationForm, Plan, PlanBlock, Schedule};
use dh_sched::legal;
use dh_value::{Kind, Op, Word};
use std::alloc::Global;
use std::process::Abort;

/// Puts an operation at the end that is always done.
fn push(operations: &mut Items<Operation>, form: OperationForm) -> Result<(), NoMemory> {
    operations.push(Operation { guard: None, form })
}

/// Puts 3, 4, 3 * 4, 4 * 3, and the sum of both products at the end.
fn push_products(operations: &mut Items<Operation>) -> Result<(), NoMemory> {
    for bits in [3, 4] {
        let word = Word {
            kind: Kind::Unsigned(8),
            bits,
        };
        push(operations, OperationForm::Constant { word })?;
    }
    for (op, left, right) in [(Op::Mul, 0, 1), (Op::Mul, 1, 0), (Op::Add, 2, 3)] {
        push(operations, OperationForm::Compute { op, left, right })?;
    }
    Ok(())
}

/// Puts a block of these operations into a plan, and the step that does it.
fn push_block(plan: &mut Plan, operations: Items<Operation>) -> Result<(), NoMemory> {
    plan.blocks.push(PlanBlock { operations })?;
    Ok(plan.body.push(Node::Step { block: 0 })?)
}

/// A plan of nothing.
fn empty_plan(alloc: Global) -> Plan {
    Plan {
        table: Items::new(alloc),
        views: Items::new(alloc),
        registers: Items::new(alloc),
        blocks: Items::new(alloc),
        body: Vec::new(alloc),
        meets: Meets::All {
            parts: Vec::new(alloc),
        },
        faults: Items::new(alloc),
    }
}

/// Makes an empty plan one of one block: 3, 4, 3 * 4, 4 * 3, and the sum of both products.
fn plan_products(alloc: Global, plan: &mut Plan) -> Result<(), NoMemory> {
    let mut operations = Items::new(alloc);
    push_products(&mut operations)?;
    push_block(plan, operations)
}

/// Whether these clocks of operations, with this length of the block, are legal in a plan under these limits.
fn is_legal(
    alloc: Global,
    plan: &Plan,
    limits: (u32, u32),
    clocks: &[u128],
    length: u128,
) -> Result<bool, NoMemory> {
    let schedule = Schedule {
        clock_of: Items::from_vec(Vec::from_slice(alloc, clocks)?),
        length: Items::from_vec(Vec::from_slice(alloc, &[length])?),
    };
    let limits = Limits {
        multipliers: limits.0,
        chain: limits.1,
    };
    legal(alloc, plan, limits, &schedule)
}

/// Limits on multipliers and on chains, a clock for each operation, the length of the block, and whether that is
/// legal: each operation stands where all that it takes is there, limits hold, the block is as long as its last
/// clock says, and there is a clock for each operation.
const SCHEDULES: &[((u32, u32), &[u128], u128, bool)] = &[
    ((0, 0), &[0, 0, 0, 0, 0], 1, true),
    ((0, 0), &[0, 0, 0, 0, 0], 2, false),
    ((0, 0), &[0, 0, 1, 0, 0], 2, false),
    ((0, 0), &[0, 0, 1, 0, 1], 2, true),
    ((1, 0), &[0, 0, 0, 0, 0], 1, false),
    ((1, 0), &[0, 0, 0, 1, 1], 2, true),
    ((0, 1), &[0, 0, 0, 0, 0], 1, false),
    ((0, 1), &[0, 0, 0, 0, 1], 2, true),
    ((0, 0), &[0, 0, 0, 0], 1, false),
];

/// Judges each schedule of the table, for this plan.
fn judge_each(rt: &impl Abort, alloc: Global, plan: &Plan) -> Result<(), NoMemory> {
    for (limits, clocks, length, want) in SCHEDULES {
        let got = is_legal(alloc, plan, *limits, clocks, *length)?;
        assert!(rt; got == *want, "at {limits:?}, {clocks:?}");
    }
    Ok(())
}

#[test]
fn schedules_are_judged(rt: HostRuntime) {
    let alloc = rt.alloc();
    let mut plan = empty_plan(alloc);
    let planned = plan_products(alloc, &mut plan);
    holds(&rt, planned.is_ok(), "memory for the plan");
    let judged = judge_each(&rt, alloc, &plan);
    holds(&rt, judged.is_ok(), "memory");
}
