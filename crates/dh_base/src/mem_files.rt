//! Files in memory, which fail at the calls they are told to: for tests, and to state what a run
//! does when the outside is known.

ghost use Rattle.std.specs.Prelude.{◌≡◌, map, MatchResult};
ghost use Rattle.dh_base.specs.Outside.{KeepsFiles, CountsRead, Reads};
ghost use Rattle.dh_base.specs.Stores.{FindsContents, stored, files_seen, uncalled_files, StoreReads};

use crate::outside::{FileFault, Files};
use std::alloc::Global;
use std::marker::Model;

/// Files in memory. Clauses see their state as a `FileStore`.
#[derive(Debug, Drop)]
pub struct MemFiles {
    entries: Vec<(String, Vec<u8>)>,
    failing: Vec<u64>,
    calls: u64,
    faults: u64,
    taken: u64,
}

impl Model for MemFiles {
    ghost use Rattle.std.specs.Prelude.{map};
    ghost use Rattle.dh_base.specs.Stores.{FileStore, stored};

    ghost Value = { FileStore };

    ghost view = { λ f. record {
      entries = map stored f.entries.items;
      failing = f.failing.items;
      calls = f.calls;
      faults = f.faults;
      taken = f.taken;
    } };
}

impl MemFiles {
    /// Files with these names and contents; where a name stands twice, the first entry counts.
    /// The calls of `read` whose numbers, from 1, are in `failing` fail and count as faults.
    /// No call and no fault was counted yet.
    pub fn new(entries: Vec<(String, Vec<u8>)>, failing: Vec<u64>) -> MemFiles
        ensures { result ≡ uncalled_files (map stored entries.items) failing.items }
    {
        MemFiles {
            entries,
            failing,
            calls: 0,
            faults: 0,
            taken: 0,
        }
    }
}

impl Files for MemFiles {
    ghost seen = { files_seen };

    /// As the trait says, and exactly: a listed call fails and counts as a fault; else a name that no
    /// entry has fails; else contents longer than `limit` are too long, and else they are given.
    /// Every call counts as one, and the bytes looked at as taken: `limit` and one more where the
    /// contents are longer. A count that stands at its last value stays there.
    fn read(&mut self, alloc: Global, name: &str, limit: u64) -> Result<Vec<u8>, FileFault>
        ensures keeps { KeepsFiles (files_seen self.old) (files_seen self.new) }
        ensures counts { CountsRead (files_seen self.old) (files_seen self.new) result }
        ensures answer { Reads (files_seen self.old) (files_seen self.new) name.now limit result }
        ensures exact { StoreReads self.old self.new name.now limit result }
    {
        self.calls = self.calls.saturating_add(1);
        if self.failing.contains(&self.calls) {
            self.faults = self.faults.saturating_add(1);
            return Err(FileFault::Failed);
        }
        let Some(bytes) = contents(&self.entries, name) else {
            return Err(FileFault::Failed);
        };
        let long = bytes.len() as u64;
        if limit < long {
            self.taken = self.taken.saturating_add(limit + 1);
            return Err(FileFault::TooLong);
        }
        self.taken = self.taken.saturating_add(long);
        copied(alloc, bytes)
    }
}

/// A copy of these bytes.
fn copied(alloc: Global, bytes: &[u8]) -> Result<Vec<u8>, FileFault>
    ensures { MatchResult result (λ copy. copy.items ≡ bytes.now) (λ e. e ≡ FileFault.NoMemory) }
{
    match Vec::from_slice(alloc, bytes) {
        Ok(copy) => Ok(copy),
        Err(_) => Err(FileFault::NoMemory),
    }
}

/// The contents of the first entry with this name.
fn contents<'a>(entries: &'a [(String, Vec<u8>)], name: &str) -> Option<&'a [u8]>
    ensures { FindsContents entries.now name.now result }
{
    for entry in entries {
        if entry.0.as_str() == name {
            return Some(entry.1.as_slice());
        }
    }
    None
}
