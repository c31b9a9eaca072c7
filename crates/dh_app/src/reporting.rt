//! The report of a run.

ghost use Rattle.std.specs.Prelude.{◌≡◌};
ghost use Rattle.dh_tree.specs.Shapes.{IsProgramTable};
ghost use Rattle.dh_tree.specs.Tables.{Fits};
ghost use Rattle.dh_app.specs.Replies.{ReplySays, reply_seen};
ghost use Rattle.dh_app.specs.Reporting.{IsEndingReport, status_of as status_by};

use crate::replies::{Answer, Reply};
use dh_base::{NoMemory, Outcome, Status};
use dh_data::{Ending, report};
use dh_tree::{MemTable, Memories};
use std::alloc::Global;

/// Reports how a run stands.
pub fn report_ending(alloc: Global, table: &MemTable, memories: &Memories, ending: &Ending) -> Reply
    requires table { IsProgramTable table.now }
    requires fits { Fits table.now memories.now }
    ensures { ReplySays (IsEndingReport table.now memories.now ending.now) (reply_seen result) }
{
    match report(alloc, table, memories, ending) {
        Ok(text) => Reply::Answer(Answer {
            status: status_of(ending.outcome),
            text,
        }),
        Err(NoMemory) => Reply::NoMemory,
    }
}

/// The status of a report.
fn status_of(outcome: Outcome) -> Status
    ensures { result ≡ status_by outcome }
{
    match outcome {
        Outcome::Going => Status::Going,
        Outcome::Ended => Status::Done,
        Outcome::Faulted { .. } => Status::Faulted,
        Outcome::Stuck { .. } => Status::Stuck,
    }
}
