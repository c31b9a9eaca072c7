//! `check FILE`.

ghost use Rattle.dh_base.specs.Outside.{KeepsFiles};
ghost use Rattle.dh_app.specs.CheckJob.{IsOk, ChecksFile};
ghost use Rattle.dh_app.specs.Inputs.{WithAnyEngine};
ghost use Rattle.dh_app.specs.Replies.{ReplySays, reply_seen};

use crate::lines::ok_line;
use crate::replies::{Reply, leave, reply_with};
use crate::sources::read_program;
use dh_base::{Files, Status};
use std::alloc::Global;

/// Says whether the program of a file breaks a rule or exceeds a limit, and which and where.
pub fn check_file<F: Files>(alloc: Global, file: &str, files: &mut F) -> Reply
    ensures files { KeepsFiles (F.seen files.old) (F.seen files.new) }
    ensures comes { WithAnyEngine (F.seen files.old) (F.seen files.new) (λ old new.
        ChecksFile old new file.now (reply_seen result)) }
{
    match read_program(alloc, file, files) {
        Ok(program) => {
            leave(program);
            ok_reply(alloc)
        }
        Err(reply) => reply,
    }
}

/// That the program breaks no rule.
fn ok_reply(alloc: Global) -> Reply
    ensures { ReplySays IsOk (reply_seen result) }
{
    reply_with(Status::Done, ok_line(alloc))
}
