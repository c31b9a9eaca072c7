//! Wires for operations in a row: those of a block.

ghost use Rattle.std.specs.Prelude.{◌≡◌, IfOk, length};
ghost use Rattle.dh_plan.specs.SeenPlans.{plan_seen};
ghost use Rattle.dh_datapath.specs.BlockWires.{IsFormedRow, RowAdded};
ghost use Rattle.dh_datapath.specs.RegistersShown.{ShowRegisters};

use crate::forms::{kind_given, push_operation};
use crate::registers::RegisterWires;
use dh_base::{Items, NoMemory};
use dh_cells::Circuit;
use dh_plan::{Operation, Plan};
use dh_value::Kind;
use std::alloc::Global;

/// The kinds of values in a row, and the wires that show them.
#[derive(Drop)]
pub struct RowWires {
    /// The kinds.
    pub kinds: Items<Kind>,
    /// The wires.
    pub wires: Items<u64>,
}

/// Adds a wire for the value of each operation of a block, the first of which has this number. Of each the ports that
/// it uses are told.
pub fn push_row(
    alloc: Global,
    circuit: &mut Circuit,
    plan: &Plan,
    registers: &RegisterWires,
    used: &[Items<(u32, u32)>],
    first: u64,
    operations: &[Operation],
) -> Result<RowWires, NoMemory>
    requires table { circuit.old.table ≡ plan.now.table }
    requires registers { ShowRegisters circuit.old plan.now.registers registers.now }
    requires formed { IsFormedRow (plan_seen plan.now) used.now first operations.now }
    requires long { length used.now ≡ length operations.now }
    ensures { IfOk result (λ row. RowAdded circuit.old circuit.new (plan_seen plan.now)
        registers.now.offset used.now first operations.now row) }
{
    let mut kinds = Items::new(alloc);
    let mut wires = Items::new(alloc);
    for (i, operation) in operations.iter().enumerate() {
        let wire = push_operation(
            circuit,
            plan,
            registers,
            used[i].as_slice(),
            first,
            kinds.as_slice(),
            wires.as_slice(),
            operation,
        )?;
        let kind = kind_given(plan, first, kinds.as_slice(), &operation.form);
        kinds.push(kind)?;
        wires.push(wire)?;
    }
    Ok(RowWires { kinds, wires })
}
