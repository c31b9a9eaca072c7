//! The standard output, or any other writer, as the output that the program writes.

ghost use Rattle.std.specs.Prelude.{◌≡◌, OnErr};
ghost use Rattle.dh_base.specs.Outside.{Rose, KeepsSink};
ghost use Rattle.dh_system.specs.Counted.{CountsUntoldWrite, HoldsWhole, WritesUntold, sink_with};

use dh_base::{Sink, SinkFault};
use std::io;
use std::io::Write;

/// An output to a writer, as the standard output is one. Clauses see how many of its writes failed,
/// a count that stays at 2^64 - 1 once it is there, and no bytes.
#[derive(Drop)]
pub struct StdSink<W: Write> {
    writer: W,
    faults: u64,
}

impl<W: Write> StdSink<W> {
    /// An output to this writer, of which no write failed yet.
    pub fn new(writer: W) -> StdSink<W>
        ensures writer { result.writer ≡ writer }
        ensures faults { result.faults ≡ 0 }
    {
        StdSink { writer, faults: 0 }
    }

    /// The writes that failed so far.
    pub fn faults(&self) -> u64
        ensures { result ≡ self.now.faults }
    {
        self.faults
    }
}

impl<W: Write> Sink for StdSink<W> {
    ghost seen = { λ s. sink_with s.faults };

    /// As the trait says, and the writer holds the whole piece after an `Ok`. Each `Err` counts as a
    /// fault, also that of a flush, and of a writer that takes nothing of a piece that isn't empty.
    fn write(&mut self, piece: &[u8]) -> Result<(), SinkFault>
        ensures keeps { KeepsSink (sink_with self.old.faults) (sink_with self.new.faults) }
        ensures counts { CountsUntoldWrite self.old.faults self.new.faults result }
        ensures answer { WritesUntold self.old.faults self.new.faults piece.now result }
        ensures counted { OnErr result (Rose self.old.faults self.new.faults) }
        ensures whole { HoldsWhole W.contents self.old.writer self.new.writer piece.now result }
    {
        match write_out(&mut self.writer, piece) {
            Ok(()) => Ok(()),
            Err(_) => {
                self.faults = self.faults.saturating_add(1);
                Err(SinkFault::Failed)
            }
        }
    }
}

/// Writes a whole piece, and what the writer may have kept back of it.
fn write_out<W: Write>(writer: &mut W, piece: &[u8]) -> io::Result<()>
    ensures { HoldsWhole W.contents writer.old writer.new piece.now result }
{
    writer.write_all(piece)?;
    writer.flush()
}
