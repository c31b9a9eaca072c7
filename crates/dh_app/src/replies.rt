//! What a job comes to before anything is written.

ghost use Rattle.dh_base.specs.declared.statuses.Status.TheVariants as status;
ghost use Rattle.dh_app.specs.Lines as lines;
ghost use Rattle.dh_app.specs.Parts.{Line, RepliesWith};
ghost use Rattle.dh_app.specs.Replies.{ReplySays, reply_seen};

use crate::lines::too_large_line;
use dh_base::{Excess, Limit, NoMemory, Status};
use std::alloc::Global;
use std::mem::forget;

/// What is to be written, and the status once it is.
#[derive(Drop)]
pub struct Answer {
    /// How the call ends once the text is written.
    pub status: Status,
    /// The text.
    pub text: Vec<u8>,
}

/// What the words, the files and the engine come to before anything is written.
#[derive(Drop)]
pub enum Reply {
    /// A text to write.
    Answer(Answer),
    /// A file could not be read.
    ReadFault,
    /// Memory was refused.
    NoMemory,
}

/// Leaves what a job made where it is. The process ends with the reply: to free each part of a tree before that
/// takes its time.
pub fn leave<T: Drop>(made: T) {
    forget(made);
}

/// A reply with a line, where memory for it was had.
pub fn reply_with(status: Status, line: Result<Vec<u8>, NoMemory>) -> Reply
    ensures { RepliesWith status line (reply_seen result) }
{
    match line {
        Ok(text) => Reply::Answer(Answer { status, text }),
        Err(NoMemory) => Reply::NoMemory,
    }
}

/// That a file is longer than its limit: the count is the limit and one.
pub fn too_large(alloc: Global, limit: Limit) -> Reply
    ensures { ReplySays (Line status.TooLarge (lines.too_long_line limit)) (reply_seen result) }
{
    let count = limit.greatest() + 1;
    let line = too_large_line(alloc, Excess { limit, count });
    reply_with(Status::TooLarge, line)
}
