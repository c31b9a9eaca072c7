//! With how many keys the copies of an access through views charge each bank of the memory: group by group of copies
//! for which the offsets of shifts are equal.

ghost use Rattle.std.specs.Prelude.{◌≡◌, ◌≤◌, ◌+◌, ◌*◌, length, slice_index, IfOk, OnOk};
ghost use Rattle.std.specs.List.{AllByRecursion};
ghost use Rattle.dh_tree.specs.Elements.{banks_of};
ghost use Rattle.dh_tree.specs.Seen.{program_seen};
ghost use Rattle.dh_tree.specs.Shapes.{most_banks, IsDim};
ghost use Rattle.dh_viewing.specs.Carried.{largest};
ghost use Rattle.dh_meaning.specs.Ways.{all_bindings_of};
ghost use Rattle.dh_base.specs.Limits.{most_copies};
ghost use Rattle.dh_ways.specs.Seen.{way_seen};
ghost use Rattle.dh_events.specs.Scopes.{AreScopes};
ghost use Rattle.dh_ports.specs.Carriers.{AddsCarried, AddsFew, AreGroupSums, Carries, HasSourcesBelow};
ghost use Rattle.dh_ports.specs.Copies.{copies_round, AreKeyCounts, IsPast, TellsPaths};
ghost use Rattle.dh_ports.specs.Tallies.{IsReadyTally, KeepsCharges};

use crate::carrying::{Carrier, carried_at};
use crate::copies::{Copied, PathReach, reach_in, stride_of};
use crate::counting::{Seen, clear, count_paths, no_counts};
use crate::keeping::KeyTally;
use dh_base::NoMemory;
use dh_events::Scope;
use dh_tree::Typed;
use dh_ways::WayRef;
use std::alloc::Global;

/// The largest of these counts.
fn largest_of(counts: &[usize]) -> usize
    ensures { result ≡ largest (slice_index counts.now) (length counts.now) }
{
    let mut most: usize = 0;
    for i in 0..counts.len() {
        most = most.max(counts[i]);
    }
    most
}

/// Counts anew at each of so many banks with how many keys so many paths reach it, from that of a number on.
fn count_group(
    seen: &mut Seen,
    counts: &mut Vec<usize>,
    banks: u64,
    reach: &PathReach,
    from: u64,
    many: u64,
) -> Result<(), NoMemory>
    requires tells { TellsPaths reach.now }
    requires range { from + many ≤ most_copies }
    requires few { banks ≤ most_banks }
    requires long { length counts.old.items ≡ banks }
    requires past { IsPast seen.old }
    ensures counts { OnOk result (AreKeyCounts reach.now from many banks counts.new.items) }
    ensures past { OnOk result (IsPast seen.new) }
{
    clear(counts.as_mut_slice());
    seen.begin();
    count_paths(seen, counts, banks, reach, from, many)
}

/// Adds to the sum of each bank of a memory what is carried there of counts.
fn add_carried(sums: &mut [usize], counts: &[usize], carrier: &Carrier)
    requires long { length sums.old ≡ length carrier.now.sources.items }
    requires banks { length counts.now ≡ carrier.now.banks }
    requires within { HasSourcesBelow carrier.now carrier.now.banks }
    requires few { AddsFew carrier.now (slice_index counts.now) sums.old }
    ensures { AddsCarried carrier.now (slice_index counts.now) sums.old sums.new }
{
    let most = largest_of(counts);
    for bank in 0..sums.len() {
        let more = carried_at(carrier, counts, most, bank);
        let sum = sums[bank] + more;
        sums[bank] = sum;
    }
}

/// For each bank of a memory the sum of what so many groups of so many paths carry there.
fn carried_sums(
    alloc: Global,
    seen: &mut Seen,
    reach: &PathReach,
    carrier: &Carrier,
    stride: u64,
    groups: u64,
) -> Result<Vec<usize>, NoMemory>
    requires tells { TellsPaths reach.now }
    requires range { groups * stride ≤ most_copies }
    requires few { carrier.now.banks ≤ most_banks }
    requires within { HasSourcesBelow carrier.now carrier.now.banks }
    requires past { IsPast seen.old }
    ensures sums { IfOk result (λ sums. AreGroupSums reach.now carrier.now
        stride groups sums.items) }
    ensures past { OnOk result (IsPast seen.new) }
{
    let banks = carrier.banks;
    let mut counts = no_counts(alloc, banks)?;
    let mut sums = no_counts(alloc, carrier.sources.len() as u64)?;
    for group in 0..groups {
        let from = group * stride;
        count_group(seen, &mut counts, banks, reach, from, stride)?;
        add_carried(sums.as_mut_slice(), counts.as_slice(), carrier);
    }
    Ok(sums)
}

/// Keeps for each bank of a memory the sum of what so many groups of so many paths carry there. Where the last access
/// reached alike, its sums are those.
fn keep_sums(
    alloc: Global,
    tally: &mut KeyTally,
    reach: PathReach,
    carrier: &Carrier,
    stride: u64,
    groups: u64,
) -> Result<(), NoMemory>
    requires tells { TellsPaths reach }
    requires range { groups * stride ≤ most_copies }
    requires few { carrier.now.banks ≤ most_banks }
    requires within { HasSourcesBelow carrier.now carrier.now.banks }
    requires past { IsReadyTally tally.old }
    ensures sums { OnOk result (AreGroupSums reach carrier.now
        stride groups tally.new.last.sums.items) }
    ensures past { OnOk result (IsReadyTally tally.new) }
{
    if tally.last.are_of(&reach, carrier, stride, groups) {
        return Ok(());
    }
    let sums = carried_sums(alloc, &mut tally.seen, &reach, carrier, stride, groups)?;
    tally.keep(alloc, reach, carrier, stride, groups, sums)
}

/// Keeps for each of the banks of a memory how much the copies of an access through the views on a way charge it.
pub fn keys_through(
    alloc: Global,
    typed: &Typed,
    scopes: &[Option<Scope>],
    tally: &mut KeyTally,
    way: &WayRef<'_>,
    carrier: &Carrier,
    copied: Copied<'_>,
) -> Result<(), NoMemory>
    requires dims { AllByRecursion IsDim copied.dims.now }
    requires few { banks_of copied.dims.now ≤ most_banks }
    requires named { copied.dims.now ≡ way.now.view.shape.dims }
    requires copies { copies_round copied.loops.now ≤ most_copies }
    requires scopes { AreScopes (all_bindings_of (program_seen typed.now)) scopes.now }
    requires carries { Carries (way_seen way.now) carrier.now }
    requires past { IsReadyTally tally.old }
    ensures counts { OnOk result (KeepsCharges (program_seen typed.now) way.now copied.entry
        carrier.now tally.new) }
    ensures past { OnOk result (IsReadyTally tally.new) }
{
    let reach = reach_in(alloc, typed, scopes, copied)?;
    let count = reach.paths.count;
    if count == 0 {
        let none = no_counts(alloc, carrier.sources.len() as u64)?;
        return tally.keep(alloc, reach, carrier, 0, 0, none);
    }
    let deep = way.shifts();
    let stride = stride_of(reach.paths.levels.as_slice(), deep, count);
    let groups = count / stride;
    keep_sums(alloc, tally, reach, carrier, stride, groups)
}
