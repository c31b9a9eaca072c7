//! The ports of a plan's operations, and the binding of a plan.

ghost use Rattle.std.specs.Prelude.{◌≡◌, IfOk, length};
ghost use Rattle.dh_plan.specs.BoundPorts.{IsBinding};
ghost use Rattle.dh_plan.specs.Passes.{MayBind, timing_seen, uses_seen};
ghost use Rattle.dh_plan.specs.PlainPlans.{operation_count};
ghost use Rattle.dh_plan.specs.SeenPlans.{plan_seen};
ghost use Rattle.dh_bind.specs.Standings.{PortsArePlaced};

use crate::units::units_of;
use crate::walker::{WalkStop, Walker};
use crate::walks::walk;
use dh_base::{Items, NoMemory};
use dh_plan::{Binding, Plan, Schedule};
use std::alloc::Global;

/// The bank and port pairs of each operation of a plan.
pub fn ports_of(alloc: Global, plan: &Plan) -> Result<Items<Items<(u32, u32)>>, NoMemory>
    requires { MayBind (plan_seen plan.now) }
    ensures { IfOk result (λ ports. PortsArePlaced (plan_seen plan.now) ports) }
{
    let mut walker = Walker::new(alloc, plan)?;
    match walk(&mut walker, alloc, &plan.meets) {
        Ok(()) => walker.ports(alloc),
        Err(WalkStop::NoMemory) => Err(NoMemory),
        Err(WalkStop::Full) => unreachable!(),
    }
}

/// Binds the operations of a plan: gives each the ports that its access is granted, and each multiplication a
/// multiplier. Time and memory are linear in operations with their banks, and in accesses.
pub fn bind(alloc: Global, plan: &Plan, schedule: &Schedule) -> Result<Binding, NoMemory>
    requires plan { MayBind (plan_seen plan.now) }
    requires clocks { length schedule.now.clock_of ≡ operation_count (plan_seen plan.now) }
    ensures { IfOk result (λ u. IsBinding (plan_seen plan.now) (timing_seen schedule.now)
        (uses_seen u)) }
{
    let ports = ports_of(alloc, plan)?;
    let unit = units_of(alloc, plan, schedule)?;
    Ok(Binding { ports, unit })
}
