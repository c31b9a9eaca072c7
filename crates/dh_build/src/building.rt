//! The parts of the net of a plan of one thread: the wires of its registers and values, its control, and its drivers.

ghost use Rattle.std.specs.Prelude.{◌≡◌, IfOk, length, slice_get, Some};
ghost use Rattle.dh_plan.specs.Passes.{uses_seen};
ghost use Rattle.dh_plan.specs.SeenPlans.{plan_seen};
ghost use Rattle.dh_datapath.specs.BlockWires.{ShowsPlan};
ghost use Rattle.dh_value.specs.Words.{IsWidth};
ghost use Rattle.dh_build.specs.BuiltParts.{AreSizes, CanMakeNet, DriversAdded, IsOver, IsTimed, OwnAdded, OwnShows, PartsAdded, ShownAdded};

use crate::drivers::push_uses;
use crate::memories::list_memories;
use dh_base::{Items, NoMemory};
use dh_cells::Circuit;
use dh_control::{Control, ControlRegisters, Keyed, push_control, push_numbers};
use dh_datapath::{PlanWires, push_blocks};
use dh_net::Driver;
use dh_plan::{Binding, Plan, State};
use std::alloc::Global;

/// The sizes of a net.
#[derive(Drop)]
pub struct Sizes {
    /// The clocks of the plan's operations.
    pub clocks: Items<u64>,
    /// The lengths of its blocks.
    pub lengths: Items<u64>,
    /// The greatest of them.
    pub longest: u64,
    /// Bits of the clock of the step.
    pub clock_width: u8,
    /// Bits of the number of the state.
    pub state_width: u8,
    /// The widths of the plan's registers.
    pub widths: Items<u8>,
}

/// Wires of registers and values.
#[derive(Drop)]
pub struct ShownWires {
    /// The registers of the net's own.
    pub own: ControlRegisters,
    /// The plan's registers and values.
    pub wires: PlanWires,
}

/// The parts of a net.
#[derive(Drop)]
pub struct Parts {
    /// The wires of its registers and values.
    pub shown: ShownWires,
    /// Its control.
    pub control: Control,
    /// The drivers of its ports in order of operations, each under the number of its port.
    pub drivers: Items<Keyed<Driver>>,
}

/// Adds wires that show the net's own registers.
fn push_own(
    circuit: &mut Circuit,
    clock_width: u8,
    state_width: u8,
) -> Result<ControlRegisters, NoMemory>
    requires clock_width { IsWidth clock_width }
    requires state_width { IsWidth state_width }
    requires clock { slice_get circuit.old.widths 0 ≡ Some clock_width }
    requires tick { slice_get circuit.old.widths 1 ≡ Some 1 }
    requires fault { slice_get circuit.old.widths 2 ≡ Some 32 }
    requires state { slice_get circuit.old.widths 3 ≡ Some state_width }
    ensures { IfOk result (λ own. OwnAdded circuit.old circuit.new clock_width state_width own) }
{
    let clock = circuit.push_register(clock_width, 0)?;
    let tick = circuit.push_register(1, 1)?;
    let fault = circuit.push_register(32, 2)?;
    let state = circuit.push_register(state_width, 3)?;
    Ok(ControlRegisters {
        clock_width,
        clock,
        tick,
        fault,
        state_width,
        state,
    })
}

/// Adds wires of the net's registers and of the plan's values.
fn push_shown(
    alloc: Global,
    circuit: &mut Circuit,
    plan: &Plan,
    binding: &Binding,
    states: &[State],
    sizes: &Sizes,
) -> Result<ShownWires, NoMemory>
    requires over { IsOver circuit.old (plan_seen plan.now) sizes.now }
    requires sizes { AreSizes (plan_seen plan.now) (length states.now) sizes.now }
    requires can { CanMakeNet (plan_seen plan.now) (uses_seen binding.now) states.now }
    ensures { IfOk result (λ shown. ShownAdded circuit.old circuit.new (plan_seen plan.now)
        (uses_seen binding.now) sizes.now shown) }
{
    let own = push_own(circuit, sizes.clock_width, sizes.state_width)?;
    let wires = push_blocks(alloc, circuit, plan, binding, 4)?;
    Ok(ShownWires { own, wires })
}

/// Adds the drivers of what the operations of a plan use, behind its control.
fn push_drivers(
    alloc: Global,
    circuit: &mut Circuit,
    plan: &Plan,
    binding: &Binding,
    states: &[State],
    sizes: &Sizes,
    shown: &ShownWires,
    control: &Control,
) -> Result<Items<Keyed<Driver>>, NoMemory>
    requires sizes { AreSizes (plan_seen plan.now) (length states.now) sizes.now }
    requires can { CanMakeNet (plan_seen plan.now) (uses_seen binding.now) states.now }
    requires clock { shown.now.own.clock_width ≡ sizes.now.clock_width }
    requires own { OwnShows circuit.old shown.now.own }
    requires plan_shown { ShowsPlan circuit.old (plan_seen plan.now) (uses_seen binding.now)
        shown.now.wires }
    requires control { IsTimed circuit.old (plan_seen plan.now) control.now }
    ensures { IfOk result (λ drivers. DriversAdded circuit.old circuit.new (plan_seen plan.now)
        (uses_seen binding.now) sizes.now shown.now control.now drivers) }
{
    let clock = shown.own.clock;
    let at = push_numbers(alloc, circuit, sizes.clock_width, clock, sizes.longest)?;
    let memories = list_memories(alloc, plan.table.as_slice())?;
    let mut drivers = Items::new(alloc);
    push_uses(
        circuit,
        plan,
        binding,
        shown.wires.kinds.as_slice(),
        shown.wires.values.as_slice(),
        control.activity.active.as_slice(),
        control.outcome.commits.as_slice(),
        at.as_slice(),
        sizes.clocks.as_slice(),
        memories.as_slice(),
        &mut drivers,
    )?;
    Ok(drivers)
}

/// Adds all parts of the net of a plan of one thread.
pub fn push_parts(
    alloc: Global,
    circuit: &mut Circuit,
    plan: &Plan,
    binding: &Binding,
    states: &[State],
    sizes: &Sizes,
) -> Result<Parts, NoMemory>
    requires over { IsOver circuit.old (plan_seen plan.now) sizes.now }
    requires sizes { AreSizes (plan_seen plan.now) (length states.now) sizes.now }
    requires can { CanMakeNet (plan_seen plan.now) (uses_seen binding.now) states.now }
    ensures { IfOk result (λ parts. PartsAdded circuit.old circuit.new (plan_seen plan.now)
        (uses_seen binding.now) states.now sizes.now parts) }
{
    let shown = push_shown(alloc, circuit, plan, binding, states, sizes)?;
    let control = push_control(
        alloc,
        circuit,
        shown.own,
        sizes.widths.as_slice(),
        shown.wires.registers.wires.as_slice(),
        shown.wires.values.as_slice(),
        plan.blocks.as_slice(),
        states,
        sizes.lengths.as_slice(),
    )?;
    let drivers = push_drivers(
        alloc, circuit, plan, binding, states, sizes, &shown, &control,
    )?;
    Ok(Parts {
        shown,
        control,
        drivers,
    })
}
