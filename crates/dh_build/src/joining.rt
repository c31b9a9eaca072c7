//! Parts of the net of a plan of one thread: the circuit to begin with, the registers, and the drivers of its ports.

ghost use Rattle.std.specs.Prelude.{◌≡◌, length, map, IfOk};
ghost use Rattle.std.specs.List.{AllByRecursion};
ghost use Rattle.dh_value.specs.Words.{IsKind, width_of};
ghost use Rattle.dh_tree.specs.Shapes.{IsProgramTable};
ghost use Rattle.dh_net.specs.BankPorts.{ports_of};
ghost use Rattle.dh_plan.specs.SeenPlans.{plan_seen};
ghost use Rattle.dh_plan.specs.Passes.{uses_seen};
ghost use Rattle.dh_control.specs.WayMoves.{way_of_decision};
ghost use Rattle.dh_build.specs.BuiltNets.{IsBuilt, nexts_of, values_from};
ghost use Rattle.dh_build.specs.BuiltParts.{AreNetRegisters, AreSizes, CanMakeNet, IsOver, net_widths};
ghost use Rattle.dh_build.specs.DrivenUsers.{AreListed};
ghost use Rattle.dh_build.specs.NetJoints.{AreJoints, IsNetOfCircuit, JointsAdded};

use crate::assembling::{list_nexts, list_registers};
use crate::beginning::list_initials;
use crate::building::{Parts, Sizes, push_parts};
use crate::drivers::list_drivers;
use crate::sizing::all_widths;
use dh_base::{FaultKind, Items, NoMemory, Place};
use dh_cells::Circuit;
use dh_control::{Control, Keyed};
use dh_net::{Driver, Net, Register, list_ports};
use dh_plan::{Binding, Decision, Plan, State};
use dh_tree::copy_table;
use std::alloc::Global;

/// Mostly an operation takes at most so many cells, so that their list is not moved while it grows; room that is not
/// used is never touched.
const CELLS_FOR_AN_OPERATION: usize = 4;

/// A circuit over the memories of a plan and the registers of its net, without a cell.
pub fn start_circuit(alloc: Global, plan: &Plan, sizes: &Sizes) -> Result<Circuit, NoMemory>
    ensures { IfOk result (λ circuit. IsOver circuit (plan_seen plan.now) sizes.now) }
{
    let further = sizes.widths.as_slice();
    let table = copy_table(alloc, plan.table.as_slice())?;
    let widths = all_widths(alloc, sizes.clock_width, sizes.state_width, further)?;
    let room = plan
        .operation_count()
        .saturating_mul(CELLS_FOR_AN_OPERATION);
    Circuit::with_room(alloc, table, widths, room)
}

/// The registers of the net of a plan whose thread begins by a decision, by the wires of its control.
pub fn net_registers(
    alloc: Global,
    plan: &Plan,
    over: u64,
    first: &Decision,
    sizes: &Sizes,
    control: &Control,
) -> Result<Items<Register>, NoMemory>
    requires kinds { AllByRecursion IsKind plan.now.registers }
    requires widths { sizes.now.widths ≡ map width_of plan.now.registers }
    requires state { length control.now.results.state ≡ 1 }
    requires news { length control.now.results.news ≡ length sizes.now.widths }
    ensures { IfOk result (λ rs. AreNetRegisters
        (net_widths sizes.now.clock_width sizes.now.state_width sizes.now.widths)
        (values_from (plan_seen plan.now) over (way_of_decision first.now))
        (nexts_of control.now) rs) }
{
    let further = sizes.widths.as_slice();
    let widths = all_widths(alloc, sizes.clock_width, sizes.state_width, further)?;
    let initials = list_initials(alloc, plan.registers.as_slice(), over, first)?;
    let nexts = list_nexts(alloc, control)?;
    let (initials, nexts) = (initials.as_slice(), nexts.as_slice());
    list_registers(alloc, widths.as_slice(), initials, nexts)
}

/// The drivers of each port of a plan's memories, in order.
pub fn net_drivers(
    alloc: Global,
    plan: &Plan,
    drivers: &[Keyed<Driver>],
) -> Result<Items<Items<Driver>>, NoMemory>
    requires { IsProgramTable plan.now.table }
    ensures { IfOk result
        (λ lists. AreListed (length (ports_of plan.now.table)) drivers.now lists) }
{
    let ports = list_ports(alloc, plan.table.as_slice())?;
    list_drivers(alloc, ports.len(), drivers)
}

/// What a net has beside the cells of its circuit.
#[derive(Drop)]
pub struct Joints {
    /// Its registers.
    pub registers: Items<Register>,
    /// The drivers of each of its ports.
    pub drivers: Items<Items<Driver>>,
    /// What its fault output names.
    pub faults: Items<(FaultKind, Place)>,
    /// The wire of its tick.
    pub tick: u64,
    /// The wire that tells that it has ended.
    pub done: u64,
    /// The wire of its fault.
    pub fault: u64,
}

/// What the net of a plan of one thread has beside its cells, by the parts that were added to its circuit.
fn list_joints(
    alloc: Global,
    plan: &Plan,
    over: u64,
    first: &Decision,
    sizes: &Sizes,
    parts: &Parts,
) -> Result<Joints, NoMemory>
    requires table { IsProgramTable plan.now.table }
    requires kinds { AllByRecursion IsKind plan.now.registers }
    requires widths { sizes.now.widths ≡ map width_of plan.now.registers }
    requires state { length parts.now.control.results.state ≡ 1 }
    requires news { length parts.now.control.results.news ≡ length sizes.now.widths }
    ensures { IfOk result
        (λ joints. AreJoints (plan_seen plan.now) over first.now sizes.now parts.now joints) }
{
    let registers = net_registers(alloc, plan, over, first, sizes, &parts.control)?;
    let drivers = net_drivers(alloc, plan, parts.drivers.as_slice())?;
    let faults = Vec::from_slice(alloc, plan.faults.as_slice())?;
    Ok(Joints {
        registers,
        drivers,
        faults: Items::from_vec(faults),
        tick: parts.shown.own.tick,
        done: parts.control.nexts.done,
        fault: parts.shown.own.fault,
    })
}

/// Adds the parts of the net of a plan of one thread to its circuit, and lists what it has beside them.
fn push_joints(
    alloc: Global,
    circuit: &mut Circuit,
    plan: &Plan,
    binding: &Binding,
    states: &[State],
    first: &Decision,
    sizes: &Sizes,
) -> Result<Joints, NoMemory>
    requires over { IsOver circuit.old (plan_seen plan.now) sizes.now }
    requires sizes { AreSizes (plan_seen plan.now) (length states.now) sizes.now }
    requires can { CanMakeNet (plan_seen plan.now) (uses_seen binding.now) states.now }
    ensures { IfOk result (λ joints. JointsAdded circuit.old circuit.new (plan_seen plan.now)
        (uses_seen binding.now) states.now first.now sizes.now joints) }
{
    let parts = push_parts(alloc, circuit, plan, binding, states, sizes)?;
    list_joints(alloc, plan, states.len() as u64, first, sizes, &parts)
}

/// The net of a circuit and of what it has beside.
fn join_net(circuit: Circuit, joints: Joints) -> Net
    ensures { IsNetOfCircuit circuit joints result }
{
    let (table, cells) = circuit.into_parts();
    Net {
        table,
        faults: joints.faults,
        registers: joints.registers,
        cells,
        drivers: joints.drivers,
        tick: joints.tick,
        done: joints.done,
        fault: joints.fault,
    }
}

/// The net of a plan whose one thread begins by a decision and goes through these states.
pub fn build_thread(
    alloc: Global,
    plan: &Plan,
    binding: &Binding,
    states: &[State],
    first: &Decision,
    sizes: &Sizes,
) -> Result<Net, NoMemory>
    requires sizes { AreSizes (plan_seen plan.now) (length states.now) sizes.now }
    requires can { CanMakeNet (plan_seen plan.now) (uses_seen binding.now) states.now }
    ensures { IfOk result (λ net. IsBuilt (plan_seen plan.now) (uses_seen binding.now) states.now
        first.now sizes.now net) }
{
    let mut circuit = start_circuit(alloc, plan, sizes)?;
    match push_joints(alloc, &mut circuit, plan, binding, states, first, sizes) {
        Ok(joints) => Ok(join_net(circuit, joints)),
        Err(fault) => Err(fault),
    }
}
