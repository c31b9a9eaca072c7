//! The top call: from the words to the status.

ghost use Rattle.std.specs.Prelude.{◌≡◌, Some};
ghost use Rattle.dh_base.specs.Outside.{KeepsFiles, KeepsSink};
ghost use Rattle.dh_app.specs.Ends.{CallEnds, OverCall};
ghost use Rattle.dh_app.specs.Inputs.{OverInputs};
ghost use Rattle.dh_app.specs.Jobs.{IsUsage, JobComes, Comes};
ghost use Rattle.dh_app.specs.Parts.{Written};
ghost use Rattle.dh_app.specs.Promises.{CountsFaults, TouchesInputs, Succeeds, HasOneAnswer};
ghost use Rattle.dh_app.specs.Replies.{ReplySays, reply_seen};
ghost use Rattle.dh_app.specs.Words.{job_of, words_seen};

use crate::checking::check_file;
use crate::engine::Engine;
use crate::interpreting::interpret;
use crate::lines::usage_line;
use crate::lowering::lower;
use crate::replies::{Answer, Reply, reply_with};
use crate::simulating::simulate;
use crate::words::{Job, word};
use dh_base::{Files, Sink, SinkFault, Status};
use std::alloc::Global;

/// Does all that the program does. `check FILE` says whether the program of a file breaks a rule or
/// exceeds a limit, and which and where. `lower FILE` compiles the program of a file and writes the Verilog
/// text of its net: the text of a net that plays the program from all fitting memories, and of no
/// other net. `interpret FILE DATA` runs the program of the one file from the memories of the other by
/// the checked semantics, and writes the report of how the run stands after the steps that it is given;
/// with `--unchecked` the ports of its memories are not judged before the run.
/// `simulate FILE DATA` compiles the program of the one file, has the engine run the net
/// from the memories of the other, and writes the report of the engine's answer.
///
/// `Ends` says for each status what is the case and what was written. Of every call it follows which
/// faults are counted (`CountsFaults`), which files are read and whether the engine is asked
/// (`Touches`), when it has to succeed (`Succeeds`), and that no other answer is one (`HasOneAnswer`).
pub fn run<F: Files, S: Sink, E: Engine>(
    alloc: Global,
    words: &[String],
    files: &mut F,
    out: &mut S,
    engine: &mut E,
) -> Status
    ensures files { KeepsFiles (F.seen files.old) (F.seen files.new) }
    ensures out { KeepsSink (S.seen out.old) (S.seen out.new) }
    ensures ends { OverCall (F.seen files.old) (E.seen engine.old) (S.seen out.old)
        (F.seen files.new) (E.seen engine.new) (S.seen out.new)
        (λ old new before after. CallEnds (words_seen words.now) old new before after result) }
    ensures faults { OverCall (F.seen files.old) (E.seen engine.old) (S.seen out.old)
        (F.seen files.new) (E.seen engine.new) (S.seen out.new)
        (λ old new before after. CountsFaults old.files new.files before after result) }
    ensures touches { OverInputs (F.seen files.old) (E.seen engine.old)
        (F.seen files.new) (E.seen engine.new)
        (TouchesInputs (words_seen words.now)) }
    ensures succeeds { OverCall (F.seen files.old) (E.seen engine.old) (S.seen out.old)
        (F.seen files.new) (E.seen engine.new) (S.seen out.new)
        (λ old new before after. Succeeds (words_seen words.now) old new before after result) }
    ensures only { OverCall (F.seen files.old) (E.seen engine.old) (S.seen out.old)
        (F.seen files.new) (E.seen engine.new) (S.seen out.new)
        (λ old new before after. HasOneAnswer (words_seen words.now) old new before after result) }
{
    call(alloc, words, files, out, engine)
}

fn call<F: Files, S: Sink, E: Engine>(
    alloc: Global,
    words: &[String],
    files: &mut F,
    out: &mut S,
    engine: &mut E,
) -> Status
    ensures files { KeepsFiles (F.seen files.old) (F.seen files.new) }
    ensures out { KeepsSink (S.seen out.old) (S.seen out.new) }
    ensures ends { OverCall (F.seen files.old) (E.seen engine.old) (S.seen out.old)
        (F.seen files.new) (E.seen engine.new) (S.seen out.new)
        (λ old new before after. CallEnds (words_seen words.now) old new before after result) }
{
    match reply_to(alloc, words, files, engine) {
        Reply::Answer(answer) => write_answer(out, &answer),
        Reply::ReadFault => Status::ReadFault,
        Reply::NoMemory => Status::NoMemory,
    }
}

/// Writes an answer in one piece.
fn write_answer<S: Sink>(out: &mut S, answer: &Answer) -> Status
    ensures out { KeepsSink (S.seen out.old) (S.seen out.new) }
    ensures written { Written (S.seen out.old) (S.seen out.new) answer.now result }
{
    match out.write(answer.text.as_slice()) {
        Ok(()) => answer.status,
        Err(SinkFault::Failed) => Status::WriteFault,
        Err(SinkFault::NoMemory) => Status::NoMemory,
    }
}

/// What the words come to.
fn reply_to<F: Files, E: Engine>(
    alloc: Global,
    words: &[String],
    files: &mut F,
    engine: &mut E,
) -> Reply
    ensures files { KeepsFiles (F.seen files.old) (F.seen files.new) }
    ensures comes { OverInputs (F.seen files.old) (E.seen engine.old)
        (F.seen files.new) (E.seen engine.new)
        (λ old new. Comes (words_seen words.now) old new (reply_seen result)) }
{
    match Job::of(words) {
        Some(job) => do_job(alloc, job, words, files, engine),
        None => usage_reply(alloc),
    }
}

/// How to call the program.
fn usage_reply(alloc: Global) -> Reply
    ensures { ReplySays IsUsage (reply_seen result) }
{
    reply_with(Status::Usage, usage_line(alloc))
}

/// Does a job that the words name.
fn do_job<F: Files, E: Engine>(
    alloc: Global,
    job: Job,
    words: &[String],
    files: &mut F,
    engine: &mut E,
) -> Reply
    requires { job_of (words_seen words.now) ≡ Some job }
    ensures files { KeepsFiles (F.seen files.old) (F.seen files.new) }
    ensures comes { OverInputs (F.seen files.old) (E.seen engine.old)
        (F.seen files.new) (E.seen engine.new)
        (λ old new. JobComes (words_seen words.now) old new job (reply_seen result)) }
{
    match job {
        Job::Check { file } => check_file(alloc, word(words, file), files),
        Job::Lower { file } => lower(alloc, word(words, file), files),
        Job::Interpret {
            file,
            data_,
            steps,
            unchecked,
        } => {
            let file = word(words, file);
            let data_ = word(words, data_);
            interpret(alloc, file, data_, steps, unchecked, files)
        }
        Job::Simulate {
            file,
            data_,
            clocks,
        } => {
            let file = word(words, file);
            let data_ = word(words, data_);
            simulate(alloc, file, data_, clocks, files, engine)
        }
    }
}
