//! `lower FILE`.

ghost use Rattle.dh_base.specs.Outside.{KeepsFiles};
ghost use Rattle.dh_tree.specs.Seen.{program_seen};
ghost use Rattle.dh_net.specs.Valid.{IsValid, HasReadsZero};
ghost use Rattle.dh_app.specs.Inputs.{WithAnyEngine};
ghost use Rattle.dh_app.specs.LowerJob.{IsNetText, LowersFile, LowersOnceRead};
ghost use Rattle.dh_app.specs.Replies.{ReplySays, reply_seen};

use crate::compiling::net_of;
use crate::replies::{Answer, Reply, leave};
use crate::sources::read_program;
use dh_base::{Files, NoMemory, Status};
use dh_check::Accepted;
use dh_net::Net;
use std::alloc::Global;

/// Compiles the program of a file, and writes the text of its net.
pub fn lower<F: Files>(alloc: Global, file: &str, files: &mut F) -> Reply
    ensures files { KeepsFiles (F.seen files.old) (F.seen files.new) }
    ensures comes { WithAnyEngine (F.seen files.old) (F.seen files.new) (λ old new.
        LowersFile old new file.now (reply_seen result)) }
{
    match read_program(alloc, file, files) {
        Ok(accepted) => {
            let reply = lower_program(alloc, &accepted);
            leave(accepted);
            reply
        }
        Err(reply) => reply,
    }
}

/// Compiles an accepted program, and writes the text of its net.
fn lower_program(alloc: Global, accepted: &Accepted) -> Reply
    ensures { LowersOnceRead (program_seen accepted.now) (reply_seen result) }
{
    match net_of(alloc, accepted) {
        Ok(net) => {
            let reply = net_text(alloc, &net);
            leave(net);
            reply
        }
        Err(reply) => reply,
    }
}

/// The text of a net.
fn net_text(alloc: Global, net: &Net) -> Reply
    requires valid { IsValid net.now }
    requires zero_reads { HasReadsZero net.now }
    ensures { ReplySays (IsNetText net.now) (reply_seen result) }
{
    match dh_verilog::write(alloc, net) {
        Ok(text) => Reply::Answer(Answer {
            status: Status::Done,
            text,
        }),
        Err(NoMemory) => Reply::NoMemory,
    }
}
