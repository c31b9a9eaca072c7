//! The levels of the reads and variables of a phase.

ghost use Rattle.std.specs.Prelude.{◌≡◌, IfOk, OnOk};
ghost use Rattle.dh_meaning.specs.CoreOf.{entity_number};
ghost use Rattle.dh_lengths.specs.HeldLevels.{read_in, variable_in, AssignsAt, AssignsLevel, EndsPhase, ReadsNext};
ghost use Rattle.dh_lengths.specs.SharedReads as reads;

use crate::undoing::{LevelMark, undo};
use dh_base::NoMemory;
use dh_events::{get_at, get_number, set_number};

/// The levels of the reads and variables of a phase: the clock of the phase's step at which each value is
/// there, from 0.
#[derive(Drop)]
pub struct PhaseLevels<'a> {
    /// Of each access of the program the earlier read that it shares.
    pub shares: &'a [Option<usize>],
    /// The level of each read so far, by its number; 0 for other accesses.
    pub reads: Vec<usize>,
    /// The number of the phase's first access.
    pub first: usize,
    /// The greatest level of the phase's reads.
    pub most: usize,
    /// The level of each variable, by its entity; 0 where it was not set in the phase.
    pub variables: Vec<usize>,
    /// The levels before each change of the phase.
    pub log: Vec<LevelMark>,
}

/// The read that an access shares.
fn share_at(shares: &[Option<usize>], number: usize) -> Option<usize>
    ensures { result ≡ reads.told shares.now number }
{
    if number < shares.len() {
        shares[number]
    } else {
        None
    }
}

/// The level of a read of the phase; 0 of others.
fn level_at(reads: &[usize], first: usize, number: usize) -> usize
    ensures { result ≡ read_in reads.now first number }
{
    if number < first {
        0
    } else if number < reads.len() {
        reads[number]
    } else {
        0
    }
}

/// The number of a variable by which its level is held.
fn number_of(entity: Option<u32>) -> u32
    ensures { result ≡ entity_number entity }
{
    match entity {
        Some(entity) => entity,
        None => 0,
    }
}

impl PhaseLevels<'_> {
    /// Notes the next read, inside tests of a level, whose indices have a level. Gives its level.
    pub fn read(&mut self, outer: usize, indices: usize) -> Result<usize, NoMemory>
        ensures { IfOk result (λ level. ReadsNext self.old self.new outer indices level) }
    {
        let number = self.reads.len();
        let level = match share_at(self.shares, number) {
            Some(earlier) => level_at(self.reads.as_slice(), self.first, earlier),
            None => indices.max(outer).min(number) + 1,
        };
        self.reads.push(level)?;
        self.most = self.most.max(level);
        Ok(level)
    }

    /// The level of a variable.
    pub fn level_of(&self, entity: Option<u32>) -> usize
        ensures { result ≡ variable_in self.now.variables.items entity }
    {
        get_at(self.variables.as_slice(), number_of(entity))
    }

    /// The variable of a number is set to a value of a level.
    pub fn assign_at(&mut self, place: usize, level: usize) -> Result<(), NoMemory>
        ensures { OnOk result (AssignsAt self.old self.new place level) }
    {
        let before = get_number(self.variables.as_slice(), place);
        self.log.push(LevelMark {
            entity: place,
            level: before,
        })?;
        set_number(&mut self.variables, place, level)
    }

    /// A variable is set to a value of a level.
    pub fn assign(&mut self, entity: Option<u32>, level: usize) -> Result<(), NoMemory>
        ensures { OnOk result (AssignsLevel self.old self.new entity level) }
    {
        self.assign_at(number_of(entity) as usize, level)
    }

    /// The phase ends.
    pub fn end_phase(&mut self) -> Result<(), NoMemory>
        ensures { OnOk result (EndsPhase self.old self.new) }
    {
        undo(&mut self.variables, self.log.as_slice())?;
        self.log.clear();
        self.first = self.reads.len();
        self.most = 0;
        Ok(())
    }
}
