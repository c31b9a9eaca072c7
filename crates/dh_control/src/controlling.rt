//! The control of one thread, put together: where it stands, what its step does, and what the registers are then.

ghost use Rattle.std.specs.Prelude.{◌≡◌, ◌≤◌, ◌^◌, length, map, IfOk};
ghost use Rattle.std.specs.List.{AllByRecursion};
ghost use Rattle.dh_cells.specs.Settled.{AreWires, IsWire};
ghost use Rattle.dh_control.specs.AllBlocks.{ChecksSuit, SetsSuit};
ghost use Rattle.dh_control.specs.ControlsMade.{ActivityMade, AfterMade, OutcomeMade, ResultsMade};
ghost use Rattle.dh_control.specs.ControlsWhole.{ControlMade, OwnWires};
ghost use Rattle.dh_control.specs.SizedWires.{WiresAreSized};
ghost use Rattle.dh_control.specs.StateWires.{AreStands};
ghost use Rattle.dh_plan.specs.SeenGraphs.{FitsThread};
ghost use Rattle.dh_control.specs.WayMoves.{HoldsStates};

use crate::ending::{push_all_checks, push_all_sets, push_ways};
use crate::gathering::Keyed;
use crate::leading::push_lead;
use crate::moving::push_moved;
use crate::standing::{push_active, push_each, push_stands};
use crate::stepping::{Nexts, Pace, Verdict, push_nexts, push_pace, push_verdict};
use dh_base::{Items, NoMemory};
use dh_cells::Circuit;
use dh_plan::{PlanBlock, State};
use std::alloc::Global;

/// Where the graph stands, by wires.
#[derive(Drop)]
pub struct Activity {
    /// For each state a wire that is 1 where the graph stands there, under the number of its block.
    pub stands: Items<Keyed<u64>>,
    /// For each block a wire that is 1 where it is active.
    pub active: Items<u64>,
}

/// What becomes of a step, by wires.
#[derive(Drop)]
pub struct StepOutcome {
    /// Whether it ends in this clock.
    pub pace: Pace,
    /// What comes of it.
    pub verdict: Verdict,
    /// For each block a wire that is 1 where its writes are made.
    pub commits: Items<u64>,
}

/// What the registers are after a clock, by wires.
#[derive(Drop)]
pub struct Results {
    /// Those of the plan.
    pub news: Items<u64>,
    /// The number of the state, one wire for the one thread.
    pub state: Items<u64>,
}

/// Adds wires for where the graph stands, and for which of so many blocks are active.
pub fn push_activity(
    alloc: Global,
    circuit: &mut Circuit,
    width: u8,
    state: u64,
    states: &[State],
    count: usize,
) -> Result<Activity, NoMemory>
    requires state { IsWire circuit.old state width }
    requires few { HoldsStates width (length states.now) }
    ensures { IfOk result (λ a. ActivityMade circuit.old circuit.new state
        (map (λ s. s.block) states.now) count a) }
{
    let stands = push_stands(alloc, circuit, width, state, states)?;
    let active = push_active(alloc, circuit, stands.as_slice(), count)?;
    Ok(Activity { stands, active })
}

/// Adds wires for what becomes of the step that the active blocks do.
pub fn push_outcome(
    alloc: Global,
    circuit: &mut Circuit,
    width: u8,
    clock: u64,
    active: &[u64],
    lengths: &[u64],
    wires: &[u64],
    blocks: &[PlanBlock],
) -> Result<StepOutcome, NoMemory>
    requires clock { IsWire circuit.old clock width }
    requires active { AreWires circuit.old active.now 1 }
    requires each { length active.now ≡ length blocks.now }
    requires each_length { length lengths.now ≡ length active.now }
    requires fits { AllByRecursion (λ n. (1 ≤ n) × (n ≤ 2 ^ width)) lengths.now }
    requires suit { ChecksSuit circuit.old wires.now blocks.now }
    ensures { IfOk result (λ o. OutcomeMade circuit.old circuit.new clock active.now lengths.now
        wires.now blocks.now o) }
{
    let mut tests = Items::new(alloc);
    push_all_checks(circuit, active, wires, blocks, &mut tests)?;
    let pace = push_pace(alloc, circuit, width, clock, active, lengths)?;
    let verdict = push_verdict(circuit, pace.last, tests.as_slice())?;
    let commits = push_each(alloc, circuit, verdict.commit, active)?;
    Ok(StepOutcome {
        pace,
        verdict,
        commits,
    })
}

/// Adds wires for the registers after sets.
pub fn push_after(
    alloc: Global,
    circuit: &mut Circuit,
    widths: &[u8],
    registers: &[u64],
    commits: &[u64],
    wires: &[u64],
    blocks: &[PlanBlock],
) -> Result<Items<u64>, NoMemory>
    requires registers { WiresAreSized circuit.old widths.now registers.now }
    requires commits { AreWires circuit.old commits.now 1 }
    requires each { length commits.now ≡ length blocks.now }
    requires suit { SetsSuit circuit.old widths.now wires.now blocks.now }
    ensures { IfOk result (λ after. AfterMade circuit.old circuit.new widths.now registers.now
        commits.now wires.now blocks.now after) }
{
    let mut moves = Items::new(alloc);
    push_all_sets(circuit, widths, commits, wires, blocks, &mut moves)?;
    push_moved(alloc, circuit, widths, registers, moves.as_slice())
}

/// Adds wires for the registers and the state after a step, by the wires of registers after sets.
pub fn push_results(
    alloc: Global,
    circuit: &mut Circuit,
    widths: &[u8],
    after: &[u64],
    width: u8,
    state: u64,
    verdict: Verdict,
    stands: &[Keyed<u64>],
    states: &[State],
) -> Result<Results, NoMemory>
    requires state { IsWire circuit.old state width }
    requires width { HoldsStates width (length states.now) }
    requires commit { IsWire circuit.old verdict.commit 1 }
    requires faulted { IsWire circuit.old verdict.faulted 1 }
    requires stands { AreStands circuit.old state 0 (map (λ s. s.block) states.now) stands.now }
    requires after { WiresAreSized circuit.old widths.now after.now }
    requires ways { AllByRecursion
        (λ s. FitsThread (length states.now) (length widths.now) s.next) states.now }
    ensures { IfOk result (λ r. ResultsMade circuit.old circuit.new widths.now after.now width state
        verdict states.now r) }
{
    let mut wires = Vec::new(alloc);
    wires.extend_from_slice(after)?;
    let mut moves = Items::new(alloc);
    let mut leads = Items::new(alloc);
    push_ways(
        circuit,
        widths,
        width,
        state,
        verdict.commit,
        stands,
        states,
        &mut wires,
        &mut moves,
        &mut leads,
    )?;
    let over = states.len() as u64;
    push_lead(circuit, width, verdict.faulted, over, &mut leads)?;
    let news = push_moved(alloc, circuit, widths, after, moves.as_slice())?;
    let state = push_moved(alloc, circuit, &[width], &[state], leads.as_slice())?;
    Ok(Results { news, state })
}

/// The registers of the control's own, by wires that show them, with their widths.
#[derive(Clone, Copy)]
pub struct ControlRegisters {
    /// Bits of the clock of the step.
    pub clock_width: u8,
    /// The clock of the step, from 0.
    pub clock: u64,
    /// The tick.
    pub tick: u64,
    /// The fault, from 1, 0 where there is none; of 32 bits.
    pub fault: u64,
    /// Bits of the number of the state.
    pub state_width: u8,
    /// The number of the state; behind all states where the run is over.
    pub state: u64,
}

/// The control of one thread, by wires.
#[derive(Drop)]
pub struct Control {
    /// Where the graph stands.
    pub activity: Activity,
    /// What becomes of the step.
    pub outcome: StepOutcome,
    /// The registers of the plan after sets.
    pub after: Items<u64>,
    /// What the registers are after the clock.
    pub results: Results,
    /// The next clock and fault, and whether the run has ended.
    pub nexts: Nexts,
}

/// Adds the control of a plan of one thread, over wires of its own registers, of the plan's, and of its values.
pub fn push_control(
    alloc: Global,
    circuit: &mut Circuit,
    own: ControlRegisters,
    widths: &[u8],
    registers: &[u64],
    wires: &[u64],
    blocks: &[PlanBlock],
    states: &[State],
    lengths: &[u64],
) -> Result<Control, NoMemory>
    requires own { OwnWires circuit.old own (length states.now) }
    requires registers { WiresAreSized circuit.old widths.now registers.now }
    requires each { length lengths.now ≡ length blocks.now }
    requires fits { AllByRecursion (λ n. (1 ≤ n) × (n ≤ 2 ^ own.clock_width)) lengths.now }
    requires checks { ChecksSuit circuit.old wires.now blocks.now }
    requires sets { SetsSuit circuit.old widths.now wires.now blocks.now }
    requires ways { AllByRecursion
        (λ s. FitsThread (length states.now) (length widths.now) s.next) states.now }
    ensures { IfOk result (λ c. ControlMade circuit.old circuit.new own widths.now registers.now
        wires.now blocks.now states.now lengths.now c) }
{
    let (width, state) = (own.state_width, own.state);
    let activity = push_activity(alloc, circuit, width, state, states, blocks.len())?;
    let outcome = push_outcome(
        alloc,
        circuit,
        own.clock_width,
        own.clock,
        activity.active.as_slice(),
        lengths,
        wires,
        blocks,
    )?;
    let commits = outcome.commits.as_slice();
    let after = push_after(alloc, circuit, widths, registers, commits, wires, blocks)?;
    let results = push_results(
        alloc,
        circuit,
        widths,
        after.as_slice(),
        width,
        state,
        outcome.verdict,
        activity.stands.as_slice(),
        states,
    )?;
    let failed = outcome.verdict.failed;
    let nexts = push_nexts(
        circuit,
        own.clock_width,
        own.clock,
        own.fault,
        outcome.pace,
        failed,
    )?;
    Ok(Control {
        activity,
        outcome,
        after,
        results,
        nexts,
    })
}
