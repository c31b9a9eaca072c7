//! With how many keys the copies of an access reach each bank of what it names.

ghost use Rattle.std.specs.Prelude.{◌≡◌, ◌⊎◌, ◌<◌, ◌≤◌, ◌+◌, ◌*◌, length, replicate, slice_index, IfOk, OnOk};
ghost use Rattle.std.specs.List.{AllByRecursion};
ghost use Rattle.dh_tree.specs.Elements.{banks_of};
ghost use Rattle.dh_tree.specs.Seen.{program_seen};
ghost use Rattle.dh_tree.specs.Shapes.{most_banks, IsDim};
ghost use Rattle.dh_meaning.specs.Ways.{all_bindings_of};
ghost use Rattle.dh_ports.specs.Copies.{copies_round, AreKeyCounts, IsPairCounted, IsMarked, IsPast, IsUnseen, SeesPair, TellsPaths};
ghost use Rattle.dh_ports.specs.Tallies.{IsReadyTally, KeepsKeys};
ghost use Rattle.dh_events.specs.Scopes.{AreScopes};
ghost use Rattle.dh_base.specs.Limits.{most_copies};

use crate::copies::{Copied, PathReach, bank_at, key_at, reach_in};
use crate::keeping::KeyTally;
use dh_base::NoMemory;
use dh_events::{Scope, get_at, set_at};
use dh_tree::Typed;
use std::alloc::Global;

/// Pairs of a bank and a key, each with the moment at which it was seen last.
#[derive(Drop)]
pub struct Seen {
    /// By the number of a pair the moment; 0 where it was not seen.
    moments: Vec<usize>,
    /// The present moment.
    moment: usize,
}

/// Sets each number to 0.
pub fn clear(counts: &mut [usize])
    ensures { counts.new ≡ replicate (length counts.old) 0 }
{
    for i in 0..counts.len() {
        counts[i] = 0;
    }
}

impl Seen {
    /// None was seen.
    pub fn new(alloc: Global) -> Seen
        ensures { IsPast result }
    {
        Seen {
            moments: Vec::new(alloc),
            moment: 0,
        }
    }

    /// Begins a moment, at which no pair was seen yet.
    pub fn begin(&mut self)
        requires past { IsPast self.old }
        ensures { IsUnseen self.new }
    {
        if self.moment < usize::MAX {
            self.moment = self.moment + 1;
        } else {
            // behind the greatest number all is forgotten
            clear(self.moments.as_mut_slice());
            self.moment = 1;
        }
    }

    /// Sees a pair by its number, and tells whether it was not seen since the present moment began.
    fn see(&mut self, pair: u32) -> Result<bool, NoMemory>
        ensures { IfOk result (λ new. SeesPair self.old self.new pair new) }
    {
        let moment = self.moment;
        if get_at(self.moments.as_slice(), pair) == moment {
            return Ok(false);
        }
        set_at(&mut self.moments, pair, moment)?;
        Ok(true)
    }
}

/// The number of a pair of a bank and a key, of so many keys.
fn pair_of(bank: u64, keys: u64, key: u64) -> u32
    requires few { bank * keys + key < 16384 }
    ensures { result ≡ bank * keys + key }
{
    (bank * keys + key) as u32
}

/// No key of any of so many banks.
pub fn no_counts(alloc: Global, banks: u64) -> Result<Vec<usize>, NoMemory>
    ensures { IfOk result (λ counts. counts.items ≡ replicate banks 0) }
{
    let mut counts = Vec::new(alloc);
    for _ in 0..banks {
        counts.push(0)?;
    }
    Ok(counts)
}

/// Counts a pair at its bank, where it was not seen since the present moment began.
fn count_pair(
    seen: &mut Seen,
    counts: &mut Vec<usize>,
    bank: usize,
    pair: u32,
) -> Result<(), NoMemory>
    requires within { bank < length counts.old.items }
    requires few { slice_index counts.old.items bank ≤ most_copies }
    ensures counts { OnOk result (IsPairCounted seen.old counts.old counts.new bank pair) }
    ensures seen { OnOk result (IsMarked seen.old seen.new pair) }
{
    let new = seen.see(pair)?;
    if new {
        counts[bank] = counts[bank] + 1;
    }
    Ok(())
}

/// The bank that an access reaches, by the bank that it names itself and by what its dimensions tell; one of them is 0.
fn bank_of(own: u64, told: u64) -> u64
    requires alone { (own ≡ 0) ⊎ (told ≡ 0) }
    requires few { told ≤ 4096 }
    ensures { result ≡ own + told }
{
    let bank = own + told;
    bank
}

/// Counts at each of so many banks with how many keys so many paths reach it, from that of a number on.
pub fn count_paths(
    seen: &mut Seen,
    counts: &mut Vec<usize>,
    banks: u64,
    reach: &PathReach,
    from: u64,
    many: u64,
) -> Result<(), NoMemory>
    requires tells { 1 ≤ many → TellsPaths reach.now }
    requires range { from + many ≤ most_copies }
    requires few { banks ≤ most_banks }
    requires unseen { IsUnseen seen.old }
    requires none { counts.old.items ≡ replicate banks 0 }
    ensures counts { OnOk result (AreKeyCounts reach.now from many banks counts.new.items) }
    ensures past { OnOk result (IsPast seen.new) }
{
    let levels = reach.paths.levels.as_slice();
    let lanes = reach.lanes.as_slice();
    for step in 0..many {
        let number = from + step;
        let told = bank_at(lanes, levels, number);
        let bank = bank_of(reach.own, told);
        let key = key_at(levels, number);
        if bank < banks {
            let pair = pair_of(bank, reach.paths.count, key);
            count_pair(seen, counts, bank as usize, pair)?;
        }
    }
    Ok(())
}

/// Keeps for each of so many banks with how many keys the paths of an access reach it. Where the last access reached
/// alike, its counts are those.
fn keep_counts(
    alloc: Global,
    tally: &mut KeyTally,
    reach: PathReach,
    banks: u64,
) -> Result<(), NoMemory>
    requires tells { 1 ≤ reach.paths.count → TellsPaths reach }
    requires range { reach.paths.count ≤ most_copies }
    requires few { banks ≤ most_banks }
    requires past { IsReadyTally tally.old }
    ensures counts { OnOk result (AreKeyCounts reach 0 reach.paths.count
        banks tally.new.direct.counts.items) }
    ensures past { OnOk result (IsReadyTally tally.new) }
{
    let many = reach.paths.count;
    if tally.direct.are_of(&reach, many, banks) {
        return Ok(());
    }
    let mut counts = no_counts(alloc, banks)?;
    tally.seen.begin();
    count_paths(&mut tally.seen, &mut counts, banks, &reach, 0, many)?;
    tally.keep_direct(reach, many, banks, counts);
    Ok(())
}

/// Keeps for each of the banks of a memory with how many keys the copies of an access reach it.
pub fn keys_reaching(
    alloc: Global,
    typed: &Typed,
    scopes: &[Option<Scope>],
    tally: &mut KeyTally,
    copied: Copied<'_>,
) -> Result<(), NoMemory>
    requires dims { AllByRecursion IsDim copied.dims.now }
    requires few { banks_of copied.dims.now ≤ most_banks }
    requires banks { copied.banks ≡ banks_of copied.dims.now }
    requires copies { copies_round copied.loops.now ≤ most_copies }
    requires scopes { AreScopes (all_bindings_of (program_seen typed.now)) scopes.now }
    requires past { IsReadyTally tally.old }
    ensures counts { OnOk result (KeepsKeys (program_seen typed.now) copied.entry tally.new) }
    ensures past { OnOk result (IsReadyTally tally.new) }
{
    let reach = reach_in(alloc, typed, scopes, copied)?;
    keep_counts(alloc, tally, reach, copied.banks)
}
