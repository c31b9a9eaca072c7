//! The files of the system, as the named files that the program reads.

ghost use Rattle.std.specs.Prelude.{◌≡◌, []};
ghost use Rattle.std.specs.IoError.{error_kind};
ghost use Rattle.dh_base.specs.Outside.{Untold, KeepsFiles};
ghost use Rattle.dh_system.specs.Counted.{FileCounts, CountsOpened, MeetsFileFault, NoMemoryMeansOutOfMemory, ReadsTold, files_with, told_contents};

use dh_base::{FileFault, Files};
use std::alloc::Global;
use std::io::{ErrorKind, Read};
use std::marker::Model;
use std::{fs, io};

/// The files of the system, each named by its path. Clauses see three counts, of the reads, of the faults
/// met and of the bytes taken, and nothing of the files' bytes, which other programs may change at any
/// time. A count that stands at its last value, 2^64 - 1, stays there.
#[derive(Drop)]
pub struct RealFiles<'a, R: std::rt::Files> {
    rt: &'a R,
    reads: u64,
    faults: u64,
    taken: u64,
}

impl<'a, R: std::rt::Files> Model for RealFiles<'a, R> {
    ghost use Rattle.dh_system.specs.Counted.{FileCounts};

    ghost Value = { FileCounts };

    ghost view = { λ f. record { reads = f.reads; faults = f.faults; taken = f.taken } };
}

impl<'a, R: std::rt::Files> RealFiles<'a, R> {
    /// The files of this runtime, with all counts at 0.
    pub fn new(rt: &'a R) -> RealFiles<'a, R>
        ensures { result ≡ record { reads = 0; faults = 0; taken = 0 } }
    {
        RealFiles {
            rt,
            reads: 0,
            faults: 0,
            taken: 0,
        }
    }

    /// The faults met so far.
    pub fn faults(&self) -> u64
        ensures { result ≡ self.now.faults }
    {
        self.faults
    }

    /// The bytes taken so far.
    pub fn taken(&self) -> u64
        ensures { result ≡ self.now.taken }
    {
        self.taken
    }

    /// The bytes of a file by its name, if they are no longer than the limit.
    fn read_named(&mut self, alloc: Global, name: &str, limit: u64) -> Result<Vec<u8>, FileFault>
        ensures keeps { KeepsFiles (files_with Untold self.old) (files_with Untold self.new) }
        ensures counts { CountsOpened self.old self.new result }
        ensures answer { ReadsTold Untold self.old self.new name.now limit result }
    {
        match fs::open(self.rt, name) {
            Ok(file) => self.read_open(alloc, file, limit),
            Err(error) => Err(self.met(&error)),
        }
    }

    /// The bytes that an open file has left, if they are no longer than the limit. No more than
    /// one byte past it is taken, so a file that never ends is too long.
    fn read_open<F: Read + Drop>(
        &mut self,
        alloc: Global,
        file: F,
        limit: u64,
    ) -> Result<Vec<u8>, FileFault>
        ensures keeps { KeepsFiles (files_with Untold self.old) (files_with Untold self.new) }
        ensures counts { CountsOpened self.old self.new result }
        ensures answer { ReadsTold (told_contents (F.remaining file)) self.old self.new [] limit result }
    {
        let mut contents = Vec::new(alloc);
        let cut = limit.saturating_add(1);
        let end = file.take(cut).read_to_end(&mut contents);
        let long = contents.len() as u64;
        self.taken = self.taken.saturating_add(long);
        match end {
            Err(error) => Err(self.met(&error)),
            Ok(_) if limit < long => Err(FileFault::TooLong),
            Ok(_) => Ok(contents),
        }
    }

    /// The fault that an error of the system is: want of memory, or one to be counted.
    fn met(&mut self, error: &io::Error) -> FileFault
        ensures keeps { KeepsFiles (files_with Untold self.old) (files_with Untold self.new) }
        ensures answer { MeetsFileFault self.old self.new result }
        ensures memory { NoMemoryMeansOutOfMemory result (error_kind error.now) }
    {
        if error.kind() == ErrorKind::OutOfMemory {
            return FileFault::NoMemory;
        }
        self.faults = self.faults.saturating_add(1);
        FileFault::Failed
    }
}

impl<'a, R: std::rt::Files> Files for RealFiles<'a, R> {
    ghost seen = { files_with Untold };

    fn read(&mut self, alloc: Global, name: &str, limit: u64) -> Result<Vec<u8>, FileFault> {
        self.reads = self.reads.saturating_add(1);
        self.read_named(alloc, name, limit)
    }
}
