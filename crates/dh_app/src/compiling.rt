//! The net of an accepted program, for the jobs that compile.

ghost use Rattle.dh_tree.specs.Seen.{program_seen};
ghost use Rattle.dh_app.specs.NetStage.{NetOf};

use crate::lines::too_large_line;
use crate::replies::{Reply, reply_with};
use dh_base::{Excess, Limit, Status};
use dh_check::Accepted;
use dh_compile::{CompileFault, compile};
use dh_net::Net;
use std::alloc::Global;

/// Compiles an accepted program; or the line that it is too large.
pub fn net_of(alloc: Global, accepted: &Accepted) -> Result<Net, Reply>
    ensures { NetOf (program_seen accepted.now) result }
{
    match compile(alloc, accepted) {
        Ok(net) => Ok(net),
        Err(CompileFault::TooLarge { size }) => {
            let excess = Excess {
                limit: Limit::Plan,
                count: size,
            };
            Err(reply_with(Status::TooLarge, too_large_line(alloc, excess)))
        }
        Err(CompileFault::NoMemory) => Err(Reply::NoMemory),
    }
}
