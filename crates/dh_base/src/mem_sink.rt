//! An output in memory, which fails at the calls it is told to: for tests, and to state what a run
//! does when the outside is known.

ghost use Rattle.std.specs.Prelude.{◌≡◌, take};
ghost use Rattle.dh_base.specs.Outside.{KeepsSink, CountsWrite, Writes};
ghost use Rattle.dh_base.specs.Stores.{sink_seen, uncalled_sink, Appends, StoreWrites};

use crate::outside::{Sink, SinkFault};
use std::alloc::Global;
use std::marker::Model;

/// An output in memory. Clauses see its state as a `SinkStore`.
#[derive(Debug, Drop)]
pub struct MemSink {
    bytes: Vec<u8>,
    failing: Vec<u64>,
    part: u64,
    calls: u64,
    faults: u64,
    refusals: u64,
}

impl Model for MemSink {
    ghost use Rattle.dh_base.specs.Stores.{SinkStore};

    ghost Value = { SinkStore };

    ghost view = { λ s. record {
      bytes = s.bytes.items;
      failing = s.failing.items;
      part = s.part;
      calls = s.calls;
      faults = s.faults;
      refusals = s.refusals;
    } };
}

impl MemSink {
    /// An output with no bytes. The calls of `write` whose numbers, from 1, are in `failing` fail
    /// and count as faults; each still writes the first `part` bytes of its piece, or all of a
    /// shorter one. No call, fault or refusal was counted yet. Takes no memory itself; `alloc` is
    /// kept for the bytes.
    pub fn new(alloc: Global, failing: Vec<u64>, part: u64) -> MemSink
        ensures { result ≡ uncalled_sink failing.items part }
    {
        MemSink {
            bytes: Vec::new(alloc),
            failing,
            part,
            calls: 0,
            faults: 0,
            refusals: 0,
        }
    }

    /// The bytes written so far.
    pub fn bytes(&self) -> &[u8]
        ensures { result.now ≡ self.now.bytes }
    {
        self.bytes.as_slice()
    }

    /// Adds a piece at the end. Where memory is refused nothing is added, and the refusal is counted.
    fn append(&mut self, piece: &[u8]) -> Result<(), SinkFault>
        ensures keeps { KeepsSink (sink_seen self.old) (sink_seen self.new) }
        ensures appends { Appends self.old self.new piece.now result }
    {
        if self.bytes.extend_from_slice(piece).is_err() {
            self.refusals = self.refusals.saturating_add(1);
            return Err(SinkFault::NoMemory);
        }
        Ok(())
    }

    /// Counts a call, and writes what it writes of its piece.
    fn put(&mut self, piece: &[u8]) -> Result<(), SinkFault>
        ensures keeps { KeepsSink (sink_seen self.old) (sink_seen self.new) }
        ensures exact { StoreWrites self.old self.new piece.now result }
    {
        self.calls = self.calls.saturating_add(1);
        if self.failing.contains(&self.calls) {
            self.append(front(piece, self.part))?;
            self.faults = self.faults.saturating_add(1);
            return Err(SinkFault::Failed);
        }
        self.append(piece)
    }
}

impl Sink for MemSink {
    ghost seen = { sink_seen };

    /// As the trait says, and exactly: a listed call writes the first `part` bytes of its piece and
    /// counts as a fault, and any other writes the whole piece. Where memory is refused nothing is
    /// written, and a refusal is counted and no fault. Every call counts as one. A count that stands at
    /// its last value stays there.
    fn write(&mut self, piece: &[u8]) -> Result<(), SinkFault>
        ensures keeps { KeepsSink (sink_seen self.old) (sink_seen self.new) }
        ensures counts { CountsWrite (sink_seen self.old) (sink_seen self.new) result }
        ensures answer { Writes (sink_seen self.old) (sink_seen self.new) piece.now result }
        ensures exact { StoreWrites self.old self.new piece.now result }
    {
        self.put(piece)
    }
}

/// The first `part` bytes of a piece, or all of a shorter one.
fn front(piece: &[u8], part: u64) -> &[u8]
    ensures { result.now ≡ take part piece.now }
{
    if part < piece.len() as u64 {
        &piece[..part as usize]
    } else {
        piece
    }
}
