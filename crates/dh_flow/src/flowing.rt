//! The graph of a plan, by the two walks.

ghost use Rattle.std.specs.Prelude.{IfOk};
ghost use Rattle.dh_plan.specs.SeenGraphs.{IsGraphOf};
ghost use Rattle.dh_plan.specs.SeenPlans.{plan_seen};
ghost use Rattle.dh_plan.specs.SoundPlans.{IsFormed};
ghost use Rattle.dh_flow.specs.GraphWalks.{Starts};
ghost use Rattle.dh_flow.specs.StraightGraphs.{StaysOneThread};

use crate::deciding::way_into;
use crate::measuring::{Footprint, measure};
use crate::walking::walk;
use dh_base::NoMemory;
use dh_plan::{Decision, Graph, Group, Plan};
use std::alloc::Global;

/// A graph without states, with the group of the program alone, which begins as nodes that take so much.
fn start(alloc: Global, whole: Footprint) -> Result<Graph, NoMemory>
    ensures { IfOk result (λ g. Starts whole.entry g) }
{
    let first = way_into(alloc, whole.entry, 0, 1, &Decision::Rest)?;
    let mut groups = Vec::new(alloc);
    groups.push(Group {
        parent: None,
        first,
        after: None,
    })?;
    Ok(Graph {
        states: Vec::with_capacity(alloc, whole.states as usize)?,
        groups,
    })
}

/// The graph that does the phases of a plan. That of a plan of one thread has one group, and no way forks.
pub fn flow(alloc: Global, plan: &Plan) -> Result<Graph, NoMemory>
    requires { IsFormed (plan_seen plan.now) }
    ensures graph { IfOk result (λ g. IsGraphOf (plan_seen plan.now) g) }
    ensures thread { IfOk result (λ g. StaysOneThread (plan_seen plan.now) g) }
{
    let body = plan.body.as_slice();
    let mut marks = Vec::new(alloc);
    let whole = measure(body, &mut marks)?;
    let mut graph = start(alloc, whole)?;
    walk(alloc, body, 0, &Decision::Rest, &mut marks, &mut graph)?;
    Ok(graph)
}
