//! `simulate FILE DATA [--clocks N]`: what the engine answers of the net of a program, and its report.

ghost use Rattle.std.specs.Prelude.{◌≡◌, [], ◌∷◌, IfOk};
ghost use Rattle.dh_base.specs.Outside.{KeepsFiles};
ghost use Rattle.dh_tree.specs.Seen.{program_seen};
ghost use Rattle.dh_tree.specs.Shapes.{IsProgramTable};
ghost use Rattle.dh_tree.specs.Tables.{Fits};
ghost use Rattle.dh_net.specs.Valid.{IsValid};
ghost use Rattle.dh_app.specs.Inputs.{OverInputs};
ghost use Rattle.dh_app.specs.Parts.{IsFirstReport, IsSingleAnswer, RunsAsPlayed};
ghost use Rattle.dh_app.specs.Replies.{ReplySays, reply_seen};
ghost use Rattle.dh_app.specs.SimulateJob.{SimulatesFiles, SimulatesOnceRead};

use crate::compiling::net_of;
use crate::engine::{Engine, Finish};
use crate::replies::{Reply, leave};
use crate::reporting::report_ending;
use crate::sources::{read_memories, read_program};
use dh_base::{Files, NoMemory};
use dh_check::Accepted;
use dh_data::Ending;
use dh_net::Net;
use dh_tree::{MemTable, Memories};
use std::alloc::Global;

/// Compiles the program of the one file, has the engine run its net from the memories of the other for at most so
/// many clocks, and reports the engine's answer.
pub fn simulate<F: Files, E: Engine>(
    alloc: Global,
    file: &str,
    data_: &str,
    clocks: u64,
    files: &mut F,
    engine: &mut E,
) -> Reply
    ensures files { KeepsFiles (F.seen files.old) (F.seen files.new) }
    ensures comes { OverInputs (F.seen files.old) (E.seen engine.old)
        (F.seen files.new) (E.seen engine.new)
        (λ old new. SimulatesFiles old new file.now data_.now clocks (reply_seen result)) }
{
    match read_program(alloc, file, files) {
        Ok(accepted) => {
            let reply = simulate_program(alloc, &accepted, data_, clocks, files, engine);
            leave(accepted);
            reply
        }
        Err(reply) => reply,
    }
}

/// Compiles an accepted program, and has its net run from the memories of a file.
fn simulate_program<F: Files, E: Engine>(
    alloc: Global,
    accepted: &Accepted,
    data_: &str,
    clocks: u64,
    files: &mut F,
    engine: &mut E,
) -> Reply
    ensures files { KeepsFiles (F.seen files.old) (F.seen files.new) }
    ensures comes { OverInputs (F.seen files.old) (E.seen engine.old)
        (F.seen files.new) (E.seen engine.new) (λ old new. SimulatesOnceRead old new data_.now
        clocks (program_seen accepted.now) (reply_seen result)) }
{
    let net = match net_of(alloc, accepted) {
        Ok(net) => net,
        Err(reply) => return reply,
    };
    match read_memories(alloc, data_, &net.table, files) {
        Ok(memories) => report_run(alloc, &net, memories, clocks, engine),
        Err(reply) => reply,
    }
}

/// Has the engine run a net, and reports the engine's answer.
fn report_run<E: Engine>(
    alloc: Global,
    net: &Net,
    memories: Memories,
    clocks: u64,
    engine: &mut E,
) -> Reply
    requires valid { IsValid net.now }
    requires fits { Fits net.now.table memories }
    ensures { RunsAsPlayed (E.seen engine.old) (E.seen engine.new) net.now memories clocks result }
{
    let Ok(sets) = only(alloc, memories) else {
        return Reply::NoMemory;
    };
    let Ok(()) = engine.finish(net, sets, clocks) else {
        return Reply::NoMemory;
    };
    report_first(alloc, &net.table, engine.answers())
}

/// The list of one item.
fn only(alloc: Global, memories: Memories) -> Result<Vec<Memories>, NoMemory>
    ensures { IfOk result (λ v. v.items ≡ memories ∷ []) }
{
    let mut sets = Vec::with_capacity(alloc, 1)?;
    sets.push(memories)?;
    Ok(sets)
}

/// Reports the first of an engine's answers.
fn report_first(alloc: Global, table: &MemTable, answers: &[Finish]) -> Reply
    requires answers { IsSingleAnswer table.now answers.now }
    requires table { IsProgramTable table.now }
    ensures { ReplySays (IsFirstReport table.now answers.now) (reply_seen result) }
{
    let finish = &answers[0];
    let ending = Ending {
        outcome: finish.outcome,
        steps: finish.steps,
        clocks: Some(finish.clocks),
    };
    report_ending(alloc, table, &finish.memories, &ending)
}
