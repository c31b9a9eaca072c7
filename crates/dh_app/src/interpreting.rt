//! `interpret FILE DATA`: the checked run of a program for so many steps, and its report.

ghost use Rattle.std.specs.Prelude.{IfOk};
ghost use Rattle.dh_base.specs.Outside.{KeepsFiles};
ghost use Rattle.dh_tree.specs.Tables.{Fits};
ghost use Rattle.dh_tree.specs.Memories.{table_of};
ghost use Rattle.dh_tree.specs.Seen.{program_seen};
ghost use Rattle.dh_tree.specs.Ready.{IsReady};
ghost use Rattle.dh_sem.specs.Runs.{StandsAt};
ghost use Rattle.dh_app.specs.Inputs.{WithAnyEngine};
ghost use Rattle.dh_app.specs.InterpretJob.{InterpretsFiles, InterpretsOnceRead, IsStandingReport};
ghost use Rattle.dh_app.specs.Replies.{ReplySays, reply_seen};

use crate::replies::{Reply, leave};
use crate::reporting::report_ending;
use crate::sources::{read_memories, read_program, read_typed};
use dh_base::{Files, NoMemory, Outcome};
use dh_check::ready_programs_have_tables;
use dh_data::Ending;
use dh_runnable::ready_programs_are_runnable;
use dh_sem::Interp;
use dh_tree::{Memories, Typed};
use std::alloc::Global;

/// Runs the program of the one file from the memories of the other, for at most so many steps, and
/// reports how the run stands then. Unchecked, the ports of the program are not judged before, and
/// the run tells where a step spends too many.
pub fn interpret<F: Files>(
    alloc: Global,
    file: &str,
    data_: &str,
    steps: u64,
    unchecked: bool,
    files: &mut F,
) -> Reply
    ensures files { KeepsFiles (F.seen files.old) (F.seen files.new) }
    ensures comes { WithAnyEngine (F.seen files.old) (F.seen files.new) (λ old new.
        InterpretsFiles old new file.now data_.now steps unchecked (reply_seen result)) }
{
    if unchecked {
        match read_typed(alloc, file, files) {
            Ok(typed) => {
                let reply = interpret_typed(alloc, &typed, data_, steps, files);
                leave(typed);
                reply
            }
            Err(reply) => reply,
        }
    } else {
        match read_program(alloc, file, files) {
            Ok(accepted) => {
                let reply = interpret_typed(alloc, accepted.typed(), data_, steps, files);
                leave(accepted);
                reply
            }
            Err(reply) => reply,
        }
    }
}

/// Runs a program from the memories of a file.
fn interpret_typed<F: Files>(
    alloc: Global,
    typed: &Typed,
    data_: &str,
    steps: u64,
    files: &mut F,
) -> Reply
    requires ready { IsReady (program_seen typed.now) }
    ensures files { KeepsFiles (F.seen files.old) (F.seen files.new) }
    ensures comes { InterpretsOnceRead (F.seen files.old) (F.seen files.new) data_.now
        (program_seen typed.now) steps (reply_seen result) }
{
    ready_programs_have_tables();
    match read_memories(alloc, data_, typed.memories(), files) {
        Ok(memories) => report_standing(alloc, typed, memories, steps),
        Err(reply) => reply,
    }
}

/// Reports how the run of a program from these memories stands after so many steps.
fn report_standing(alloc: Global, typed: &Typed, memories: Memories, steps: u64) -> Reply
    requires ready { IsReady (program_seen typed.now) }
    requires fits { Fits (table_of (program_seen typed.now)) memories }
    ensures { ReplySays (IsStandingReport (program_seen typed.now) memories steps) (reply_seen result) }
{
    ready_programs_have_tables();
    let Ok(interp) = run_for(alloc, typed, memories, steps) else {
        return Reply::NoMemory;
    };
    let ending = Ending {
        outcome: interp.outcome(),
        steps: interp.steps(),
        clocks: None,
    };
    let reply = report_ending(alloc, typed.memories(), interp.memories(), &ending);
    leave(interp);
    reply
}

/// The run of a program from these memories after so many steps, or where it ended before.
fn run_for<'a>(
    alloc: Global,
    typed: &'a Typed,
    memories: Memories,
    steps: u64,
) -> Result<Interp<'a>, NoMemory>
    requires ready { IsReady (program_seen typed.now) }
    requires fits { Fits (table_of (program_seen typed.now)) memories }
    ensures { IfOk result (λ interp. StandsAt (program_seen typed.now) memories steps interp) }
{
    ready_programs_have_tables();
    ready_programs_are_runnable();
    let mut interp = Interp::new(alloc, typed, memories)?;
    for _ in 0..steps {
        let Outcome::Going = interp.step()? else {
            return Ok(interp);
        };
    }
    Ok(interp)
}
