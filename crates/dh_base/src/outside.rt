//! The outside as two traits, named files to read and an output to write, and how a call of either
//! can fail. Clauses see of each what they could know of a real one: its counts, and its bytes only
//! where they are told.

ghost use Rattle.dh_base.specs.Outside.{FilesSeen, SinkSeen, KeepsFiles, CountsRead, Reads, KeepsSink, CountsWrite, Writes};

use std::alloc::Global;
use thiserror::Error;

/// Why a file was not read.
#[derive(Clone, Copy, Debug, PartialEq, Eq, Error)]
pub enum FileFault {
    /// There is no such file, or reading it failed.
    #[error("the file could not be read")]
    Failed,
    /// The file has more bytes than the limit.
    #[error("the file is longer than the limit")]
    TooLong,
    /// Memory for the contents was refused.
    #[error("memory for the file was refused")]
    NoMemory,
}

/// Why a piece was not written whole. A prefix of it was, maybe none or all of it.
#[derive(Clone, Copy, Debug, PartialEq, Eq, Error)]
pub enum SinkFault {
    /// Writing failed.
    #[error("the output could not be written")]
    Failed,
    /// Memory for the output was refused.
    #[error("memory for the output was refused")]
    NoMemory,
}

/// Named files, which can only be read.
pub trait Files {
    /// What a clause sees of them.
    ghost seen: { Self → FilesSeen };

    /// The whole contents of a file, in bytes, if they are no longer than `limit` bytes. Each call
    /// counts as one read.
    /// Fails as `Failed` where the file is absent or a fault was met, which counts as one; as
    /// `TooLong` where more than `limit` bytes were taken; as `NoMemory` where memory was refused.
    fn read(&mut self, alloc: Global, name: &str, limit: u64) -> Result<Vec<u8>, FileFault>
        ensures keeps { KeepsFiles (seen self.old) (seen self.new) }
        ensures counts { CountsRead (seen self.old) (seen self.new) result }
        ensures answer { Reads (seen self.old) (seen self.new) name.now limit result };
}

/// An output, to which pieces are written in order.
pub trait Sink {
    /// What a clause sees of it.
    ghost seen: { Self → SinkSeen };

    /// Writes a piece after what was written before. After an error a prefix of the piece was
    /// written. Fails as `Failed` where a fault was met, which counts as one; as `NoMemory` where
    /// memory was refused, which counts as one refusal.
    fn write(&mut self, piece: &[u8]) -> Result<(), SinkFault>
        ensures keeps { KeepsSink (seen self.old) (seen self.new) }
        ensures counts { CountsWrite (seen self.old) (seen self.new) result }
        ensures answer { Writes (seen self.old) (seen self.new) piece.now result };
}
