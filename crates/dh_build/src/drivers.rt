//! The drivers of the ports of a plan: of all operations of all blocks, by port.

ghost use Rattle.std.specs.Prelude.{◌≡◌, ◌<◌, length, IfOk, OnOk};
ghost use Rattle.std.specs.List.{AllByRecursion};
ghost use Rattle.dh_cells.specs.Settled.{AreWires};
ghost use Rattle.dh_plan.specs.Passes.{uses_seen};
ghost use Rattle.dh_plan.specs.PlainPlans.{operation_count};
ghost use Rattle.dh_plan.specs.SeenPlans.{plan_seen};
ghost use Rattle.dh_build.specs.DrivenUsers.{AreListed, UsesDriven, UsesSuit, plan_times};
ghost use Rattle.dh_build.specs.MemoryTables.{AreMemoryPorts};

use dh_base::{Items, NoMemory};
use dh_cells::Circuit;
use dh_control::{Keyed, MemoryPorts, gather, push_block_uses};
use dh_net::Driver;
use dh_plan::{Binding, Plan};
use dh_value::Kind;
use std::alloc::Global;

/// Adds the drivers of what the operations of a plan read or write, in order of blocks, operations and banks. `active`
/// and `commits` have a wire for each block, `at` has one for each clock of a step, and `clocks` are those of the
/// plan's operations.
pub fn push_uses(
    circuit: &mut Circuit,
    plan: &Plan,
    binding: &Binding,
    kinds: &[Kind],
    wires: &[u64],
    active: &[u64],
    commits: &[u64],
    at: &[u64],
    clocks: &[u64],
    memories: &[MemoryPorts],
    drivers: &mut Items<Keyed<Driver>>,
) -> Result<(), NoMemory>
    requires active { AreWires circuit.old active.now 1 }
    requires each_active { length active.now ≡ length plan.now.blocks }
    requires commits { AreWires circuit.old commits.now 1 }
    requires each_commit { length commits.now ≡ length plan.now.blocks }
    requires at { AreWires circuit.old at.now 1 }
    requires clocks { length clocks.now ≡ operation_count (plan_seen plan.now) }
    requires early { AllByRecursion (λ c. c < length at.now) clocks.now }
    requires ports { length binding.now.ports ≡ operation_count (plan_seen plan.now) }
    requires memories { AreMemoryPorts plan.now.table memories.now }
    requires suit { UsesSuit circuit.old (plan_seen plan.now) (uses_seen binding.now) kinds.now
        wires.now memories.now }
    ensures { OnOk result (UsesDriven circuit.old circuit.new (plan_seen plan.now)
        (uses_seen binding.now) kinds.now wires.now
        (plan_times (plan_seen plan.now) active.now commits.now at.now clocks.now)
        drivers.old drivers.new) }
{
    let blocks = plan.blocks.as_slice();
    let mut ports = binding.ports.as_slice();
    let mut times = clocks;
    for i in 0..blocks.len() {
        let operations = blocks[i].operations.as_slice();
        let own_ports = ports.split_at(operations.len());
        let own_times = times.split_at(operations.len());
        push_block_uses(
            circuit,
            kinds,
            wires,
            active[i],
            commits[i],
            at,
            own_times.0,
            operations,
            memories,
            own_ports.0,
            drivers,
        )?;
        ports = own_ports.1;
        times = own_times.1;
    }
    Ok(())
}

/// The drivers of each port below a count, in order.
pub fn list_drivers(
    alloc: Global,
    count: usize,
    entries: &[Keyed<Driver>],
) -> Result<Items<Items<Driver>>, NoMemory>
    ensures { IfOk result (λ lists. AreListed count entries.now lists) }
{
    let gathered = gather(alloc, count, entries)?;
    let mut lists = Items::new(alloc);
    for list in gathered {
        lists.push(Items::from_vec(list))?;
    }
    Ok(lists)
}
