//! The passes behind `unroll`, one after the other.

ghost use Rattle.std.specs.Prelude.{IfOk};
ghost use Rattle.dh_plan.specs.Passes.{MayBind};
ghost use Rattle.dh_plan.specs.SeenPlans.{plan_seen};
ghost use Rattle.dh_backend.specs.NetParts.{ArePartsOf, ArePassed};
ghost use Rattle.dh_backend.specs.SuitedPlans.{IsCompiled};

use crate::times::{BlockTimes, times_of};
use dh_address::addresses;
use dh_base::NoMemory;
use dh_bind::bind;
use dh_flow::flow;
use dh_plan::{Binding, Graph, Limits, Plan};
use dh_sched::schedule;
use std::alloc::Global;

/// What is made of an addressed plan.
#[derive(Drop)]
pub struct Passed {
    /// Its graph of states.
    pub graph: Graph,
    /// Its schedule without limits.
    pub times: BlockTimes,
    /// The ports and multipliers of its operations.
    pub binding: Binding,
}

/// What the netlist of a plan is made of.
#[derive(Drop)]
pub struct NetParts {
    /// The plan with banks and rows in place of indices.
    pub plan: Plan,
    /// What is made of that.
    pub passed: Passed,
}

/// The graph, the schedule without limits and the binding of a plan.
fn pass(alloc: Global, plan: &Plan) -> Result<Passed, NoMemory>
    requires { MayBind (plan_seen plan.now) }
    ensures { IfOk result (ArePassed (plan_seen plan.now)) }
{
    let limits = Limits {
        multipliers: 0,
        chain: 0,
    };
    let least = schedule(alloc, plan, limits)?;
    let times = times_of(alloc, plan, &least)?;
    let binding = bind(alloc, plan, &least)?;
    let graph = flow(alloc, plan)?;
    Ok(Passed {
        graph,
        times,
        binding,
    })
}

/// Makes of a program's plan all that its netlist is made of. Time is linear in the plan, its banks and the chains of
/// loops that end together.
///
/// # Errors
///
/// `NoMemory` where an allocation was refused.
pub fn parts_of(alloc: Global, plan: Plan) -> Result<NetParts, NoMemory>
    requires { IsCompiled (plan_seen plan) }
    ensures { IfOk result (ArePartsOf (plan_seen plan)) }
{
    let plan = addresses(alloc, plan)?;
    match pass(alloc, &plan) {
        Ok(passed) => Ok(NetParts { plan, passed }),
        Err(fault) => Err(fault),
    }
}
