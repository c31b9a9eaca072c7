//! The run of a net under a limit of clocks.

ghost use Rattle.std.specs.Prelude.{◌≡◌, ◌≤◌, IfOk};
ghost use Rattle.dh_tree.specs.Tables.{Fits};
ghost use Rattle.dh_net.specs.Valid.{IsValid};
ghost use Rattle.dh_net.specs.Ends.{entry_at};
ghost use Rattle.dh_sim.specs.Underway.{IsUnderway, TellsEnd, StopsIn, RunsTo};

use crate::arrays::Shown;
use crate::simulator::Sim;
use dh_base::{FaultKind, NoMemory, Outcome, Place};
use dh_net::Net;
use dh_tree::Memories;
use std::alloc::Global;

/// How a run under a limit of clocks ended.
#[derive(Clone, Copy, PartialEq, Eq)]
pub struct RunEnd {
    /// How the run stands: `Going` where the limit came first.
    pub outcome: Outcome,
    /// The clocks, from the first on, after which the net showed a tick.
    pub steps: u64,
    /// The clocks of the run.
    pub clocks: u64,
}

// The entry that a fault output names, from 1; 0 is none.
fn entry_named(net: &Net, number: u32) -> Option<(FaultKind, Place)>
    ensures { result ≡ entry_at net.now.faults number }
{
    if number == 0 {
        return None;
    }
    net.faults.as_slice().get(number as usize - 1).copied()
}

// The end that the net shows, where it shows one: a fault comes before done.
fn end_shown(net: &Net, shown: Shown) -> Option<Outcome>
    ensures { TellsEnd net.now shown result }
{
    match entry_named(net, shown.fault) {
        Some((kind, place)) => Some(Outcome::Faulted { kind, place }),
        None if shown.done => Some(Outcome::Ended),
        None => None,
    }
}

// Clocks the net until it shows an end, or the limit has been reached.
fn run_to_end(net: &Net, sim: &mut Sim<'_>, limit: u64) -> RunEnd
    requires valid { IsValid net.now }
    requires net { sim.old.net ≡ net.now }
    ensures net { sim.new.net ≡ net.now }
    ensures within { result.clocks ≤ limit }
    ensures underway { IsUnderway net.now sim.old.state result.clocks sim.new.state result.steps }
    ensures stops { StopsIn net.now sim.new.state result.clocks limit result.outcome }
{
    let mut shown = sim.shown();
    let mut steps = 0;
    for clocks in 0..limit {
        if let Some(outcome) = end_shown(net, shown) {
            return RunEnd {
                outcome,
                steps,
                clocks,
            };
        }
        shown = sim.clock();
        steps += u64::from(shown.tick);
    }
    RunEnd {
        outcome: end_shown(net, shown).unwrap_or(Outcome::Going),
        steps,
        clocks: limit,
    }
}

/// Runs the net from these memories until it shows done, or a fault that is the number of an entry,
/// or `limit` clocks have passed. The memories of the last state are the second result.
///
/// # Errors
///
/// `NoMemory` where an allocation was refused; all room is made before the first clock.
pub fn run_net(
    alloc: Global,
    net: &Net,
    memories: Memories,
    limit: u64,
) -> Result<(RunEnd, Memories), NoMemory>
    requires valid { IsValid net.now }
    requires fits { Fits net.now.table memories }
    ensures { IfOk result (λ r. RunsTo net.now memories limit r.0 r.1) }
{
    let mut sim = Sim::new(alloc, net, memories)?;
    let end = run_to_end(net, &mut sim, limit);
    Ok((end, sim.into_memories()))
}
