//! The step: whether it ends in this clock, its first fault, and whether what it does is kept.

ghost use Rattle.std.specs.Prelude.{◌≡◌, ◌≤◌, ◌^◌, length, IfOk};
ghost use Rattle.std.specs.List.{AllByRecursion};
ghost use Rattle.dh_cells.specs.FirstTests.{AreTested};
ghost use Rattle.dh_cells.specs.Settled.{AreWires, IsWire};
ghost use Rattle.dh_control.specs.StepWires.{NextsMade, PaceMade, VerdictMade};

use crate::standing::push_waits;
use dh_base::NoMemory;
use dh_cells::{
    Circuit, Tested, push_any, push_both, push_choice, push_first, push_guarded, push_match,
    push_more, push_not,
};
use std::alloc::Global;

/// Wires that tell whether the step ends in this clock.
#[derive(Clone, Copy)]
pub struct Pace {
    /// A block is active.
    pub going: u64,
    /// One of the active blocks is not in its last clock.
    pub waiting: u64,
    /// The step ends in this clock.
    pub last: u64,
}

/// Wires that tell what comes of the pace.
#[derive(Clone, Copy)]
pub struct Verdict {
    /// The number of the first fault from 1, 0 where there is none. It means something where the step ends.
    pub failed: u64,
    /// The step ends without fault.
    pub commit: u64,
    /// It ends with a fault.
    pub faulted: u64,
}

/// Wires for the next clock, and for the outputs of a net.
#[derive(Clone, Copy)]
pub struct Nexts {
    /// The next clock of the pace.
    pub clock: u64,
    /// The next fault.
    pub fault: u64,
    /// The run has ended without a fault.
    pub done: u64,
}

/// Adds wires that tell whether the step ends in this clock, by the blocks that are active and their lengths.
pub fn push_pace(
    alloc: Global,
    circuit: &mut Circuit,
    width: u8,
    clock: u64,
    active: &[u64],
    lengths: &[u64],
) -> Result<Pace, NoMemory>
    requires clock { IsWire circuit.old clock width }
    requires active { AreWires circuit.old active.now 1 }
    requires each { length lengths.now ≡ length active.now }
    requires fits { AllByRecursion (λ n. (1 ≤ n) × (n ≤ 2 ^ width)) lengths.now }
    ensures { IfOk result (λ p. PaceMade circuit.old circuit.new clock active.now lengths.now p) }
{
    let waits = push_waits(alloc, circuit, width, clock, active, lengths)?;
    let waiting = push_any(circuit, waits.as_slice())?;
    let done = push_not(circuit, waiting)?;
    let going = push_any(circuit, active)?;
    let last = push_both(circuit, going, done)?;
    Ok(Pace {
        going,
        waiting,
        last,
    })
}

/// Adds wires that tell what comes of the step, by the tests of its faults in order.
pub fn push_verdict(circuit: &mut Circuit, last: u64, tests: &[Tested]) -> Result<Verdict, NoMemory>
    requires last { IsWire circuit.old last 1 }
    requires tests { AreTested circuit.old tests.now 32 }
    ensures { IfOk result (λ v. VerdictMade circuit.old circuit.new last tests.now v) }
{
    let none = circuit.push_constant(32, 0)?;
    let failed = push_first(circuit, 32, tests, none)?;
    let fine = push_match(circuit, 32, failed, 0)?;
    let commit = push_both(circuit, last, fine)?;
    let wrong = push_not(circuit, fine)?;
    let faulted = push_both(circuit, last, wrong)?;
    Ok(Verdict {
        failed,
        commit,
        faulted,
    })
}

/// Adds the wires of the next clock and fault, and whether the run has ended.
pub fn push_nexts(
    circuit: &mut Circuit,
    width: u8,
    clock: u64,
    fault: u64,
    pace: Pace,
    failed: u64,
) -> Result<Nexts, NoMemory>
    requires clock { IsWire circuit.old clock width }
    requires fault { IsWire circuit.old fault 32 }
    requires going { IsWire circuit.old pace.going 1 }
    requires waiting { IsWire circuit.old pace.waiting 1 }
    requires last { IsWire circuit.old pace.last 1 }
    requires failed { IsWire circuit.old failed 32 }
    ensures { IfOk result
        (λ nexts. NextsMade circuit.old circuit.new width clock fault pace failed nexts) }
{
    let more = push_more(circuit, width, clock)?;
    let next = push_guarded(circuit, width, pace.waiting, more)?;
    let kept = push_choice(circuit, 32, pace.last, failed, fault)?;
    let over = push_not(circuit, pace.going)?;
    let fine = push_match(circuit, 32, fault, 0)?;
    let done = push_both(circuit, over, fine)?;
    Ok(Nexts {
        clock: next,
        fault: kept,
        done,
    })
}
