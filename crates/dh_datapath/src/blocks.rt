//! The wires of a plan: those of its registers, and for each operation of its blocks one that shows its value.

ghost use Rattle.std.specs.Prelude.{◌≡◌, ◌++◌, IfOk, OnOk, length};
ghost use Rattle.dh_plan.specs.BoundPorts.{ArePorts};
ghost use Rattle.dh_plan.specs.Passes.{uses_seen};
ghost use Rattle.dh_plan.specs.PlainPlans.{operation_count};
ghost use Rattle.dh_plan.specs.SeenPlans.{plan_seen};
ghost use Rattle.dh_plan.specs.SoundPlans.{IsFormed};
ghost use Rattle.dh_datapath.specs.BlockWires.{PlanAdded};
ghost use Rattle.dh_datapath.specs.RegistersShown.{HasRegisters};

use crate::registers::{RegisterWires, push_registers};
use crate::rows::push_row;
use dh_base::{Items, NoMemory};
use dh_cells::Circuit;
use dh_plan::{Binding, Plan};
use dh_value::Kind;
use std::alloc::Global;

/// The wires of a plan. Operations go by their numbers over the whole plan.
#[derive(Drop)]
pub struct PlanWires {
    /// Those of its registers.
    pub registers: RegisterWires,
    /// The kind of each operation's value.
    pub kinds: Items<Kind>,
    /// For each operation the wire that shows its value.
    pub values: Items<u64>,
}

// Adds items at the end of a list.
fn append<T: Copy + Drop>(list: &mut Items<T>, more: &[T]) -> Result<(), NoMemory>
    ensures { OnOk result (list.new ≡ list.old ++ more.now) }
{
    for item in more {
        list.push(*item)?;
    }
    Ok(())
}

/// Adds the wires of a plan to a circuit whose registers are those of the plan from the offset on: a wire for each
/// register, and one for each operation of each block, which shows its value. Time is linear in operations and the
/// banks that they list.
pub fn push_blocks(
    alloc: Global,
    circuit: &mut Circuit,
    plan: &Plan,
    binding: &Binding,
    offset: u32,
) -> Result<PlanWires, NoMemory>
    requires table { circuit.old.table ≡ plan.now.table }
    requires registers { HasRegisters circuit.old offset plan.now.registers }
    requires formed { IsFormed (plan_seen plan.now) }
    requires ports { ArePorts (plan_seen plan.now) (uses_seen binding.now) }
    requires all_ports { length binding.now.ports ≡ operation_count (plan_seen plan.now) }
    ensures { IfOk result (λ wires. PlanAdded circuit.old circuit.new (plan_seen plan.now)
        (uses_seen binding.now) offset wires) }
{
    let registers = push_registers(alloc, circuit, plan.registers.as_slice(), offset)?;
    let mut rest = binding.ports.as_slice();
    let mut kinds = Items::with_room(alloc, rest.len())?;
    let mut values = Items::with_room(alloc, rest.len())?;
    for block in plan.blocks.as_slice() {
        let operations = block.operations.as_slice();
        let parts = rest.split_at(operations.len());
        let first = values.len() as u64;
        let row = push_row(alloc, circuit, plan, &registers, parts.0, first, operations)?;
        append(&mut kinds, row.kinds.as_slice())?;
        append(&mut values, row.wires.as_slice())?;
        rest = parts.1;
    }
    Ok(PlanWires {
        registers,
        kinds,
        values,
    })
}
