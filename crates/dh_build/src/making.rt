//! The net of a plan: the last of the compiler's passes.

ghost use Rattle.std.specs.Prelude.{IfOk};
ghost use Rattle.dh_plan.specs.Passes.{uses_seen};
ghost use Rattle.dh_plan.specs.SeenPlans.{plan_seen};
ghost use Rattle.dh_build.specs.BuiltPlans.{CanBuild, IsBuiltNet, timing_of};

use crate::joining::build_thread;
use crate::sizing::size_up;
use dh_base::NoMemory;
use dh_net::Net;
use dh_plan::{Binding, Graph, Plan};
use std::alloc::Global;

/// Makes the net of a plan of one thread by what the passes before make of it: its graph, the ports of its operations,
/// and its schedule, a clock for each operation and a length for each block. It has a cell for whatever may be asked of
/// its values; `sweep` of `dh_swept` leaves out those that nothing needs.
///
/// # Errors
///
/// `NoMemory` where an allocation was refused.
pub fn build(
    alloc: Global,
    plan: &Plan,
    graph: &Graph,
    binding: &Binding,
    clocks: &[u64],
    lengths: &[u64],
) -> Result<Net, NoMemory>
    requires { CanBuild (plan_seen plan.now) graph.now (timing_of clocks.now lengths.now)
        (uses_seen binding.now) }
    ensures { IfOk result (λ net. IsBuiltNet (plan_seen plan.now) lengths.now net) }
{
    let states = graph.states.as_slice();
    let first = &graph.groups.as_slice()[0].first;
    let sizes = size_up(alloc, plan, states.len() as u64, clocks, lengths)?;
    build_thread(alloc, plan, binding, states, first, &sizes)
}
