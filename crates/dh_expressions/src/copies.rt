//! The copies of an access: which of them are one read or write, which bank of what is named each
//! reaches, and where it stands among those of its access on the banks behind that. Copies of a read with one key are one: the
//! first path with this key leads, and the read is done where it is done at one of its paths. A
//! write is done at each of its paths.

ghost use Rattle.std.specs.Prelude.{◌≡◌, ◌==◌, [], length, IfOk, OnOk};
ghost use Rattle.dh_tree.specs.Seen.{form_seen};
ghost use Rattle.dh_expressions.specs.Copying.{AddsCopy, TellsCountedLevels, JoinsGuards, JoinsLeader, MakesCopiesBy, banks_by, groups_by, leaders_by};
ghost use Rattle.dh_expressions.specs.Standings.{standing_at};
ghost use Rattle.dh_expressions.specs.Touching.{MakesCopies};

use crate::banks::{BankSpan, bank_at, bank_told};
use crate::drafts::{Draft, push_compute};
use crate::naming::shifts_through;
use crate::paths::{leader_of, rank_at};
use crate::scenes::{Around, Scene, guard_at};
use crate::tallies::{count_none, no_tally, place_next};
use dh_base::NoMemory;
use dh_events::access_depends;
use dh_tree::Expr;
use dh_value::Op;
use std::alloc::Global;

/// An access at a path.
#[derive(Clone, Copy)]
pub struct AccessAt {
    /// The first path with its key.
    pub leader: u64,
    /// The bank of what is named that it reaches.
    pub bank: u32,
    /// Its place on the banks behind that: those of earlier groups of paths stand before it, and
    /// the earlier leaders of its own group that reach this bank.
    pub place: u32,
    /// Of a leader on what it depends whether it is done; None for the others.
    pub guard: Option<u64>,
}

/// Of each loop whether an access depends on it.
fn counts_of(
    scene: &Scene<'_>,
    levels: usize,
    access: &Expr,
    writes: bool,
) -> Result<Vec<bool>, NoMemory>
    ensures { IfOk result (λ counts. TellsCountedLevels scene.now levels (form_seen access.now.form) writes
        counts.items) }
{
    let mut counts = Vec::new(scene.alloc);
    for level in 0..levels {
        counts.push(access_depends(scene.scopes, level, access, writes))?;
    }
    Ok(counts)
}

/// The guard of what is done where one of two is.
fn push_either(
    draft: &mut Draft,
    one: Option<u64>,
    other: Option<u64>,
) -> Result<Option<u64>, NoMemory>
    ensures { IfOk result (λ joined. JoinsGuards draft.old draft.new one other joined) }
{
    match one {
        Some(one) => match other {
            Some(other) => Ok(Some(push_compute(draft, Op::Either, one, other)?)),
            None => Ok(None),
        },
        None => Ok(None),
    }
}

/// Has the first path with a key be done where a further one is.
fn join_leader(
    draft: &mut Draft,
    copies: &mut Vec<AccessAt>,
    leader: u64,
    guard: Option<u64>,
) -> Result<(), NoMemory>
    ensures { OnOk result (JoinsLeader draft.old draft.new copies.old.items copies.new.items
        leader guard) }
{
    let at = leader as usize;
    if at < copies.len() {
        let copy = copies[at];
        let guard = push_either(draft, copy.guard, guard)?;
        copies[at] = AccessAt {
            leader: copy.leader,
            bank: copy.bank,
            place: copy.place,
            guard,
        };
    }
    Ok(())
}

/// Adds the copy at the next path.
fn add_copy(
    draft: &mut Draft,
    copies: &mut Vec<AccessAt>,
    number: u64,
    leader: u64,
    bank: u32,
    place: u32,
    guard: Option<u64>,
) -> Result<(), NoMemory>
    ensures { OnOk result (AddsCopy draft.old draft.new copies.old.items copies.new.items
        number leader bank place guard) }
{
    if leader == number {
        copies.push(AccessAt {
            leader,
            bank,
            place,
            guard,
        })?;
        return Ok(());
    }
    join_leader(draft, copies, leader, guard)?;
    copies.push(AccessAt {
        leader,
        bank,
        place,
        guard: None,
    })?;
    Ok(())
}

/// No copy.
fn no_copies(alloc: Global) -> Vec<AccessAt>
    ensures { result.items ≡ [] }
{
    Vec::new(alloc)
}

/// Whether a path leads itself.
fn is_leader(leader: u64, number: u64) -> bool
    ensures { result ≡ (leader == number) }
{
    leader == number
}

/// How many paths there are, by their guards.
fn path_count(guards: &[Option<u64>]) -> u64
    ensures { result ≡ length guards.now }
{
    guards.len() as u64
}

/// The copies of an access whose banks are told so, by the loops on which it depends. Paths whose
/// first copies are the same, so many, are one group.
fn copies_by(
    alloc: Global,
    around: Around<'_>,
    draft: &mut Draft,
    numbers: &mut Vec<usize>,
    counts: &[bool],
    spans: &[BankSpan],
    named: u64,
    shifts: u32,
) -> Result<Vec<AccessAt>, NoMemory>
    ensures { IfOk result (λ copies. MakesCopiesBy draft.old draft.new numbers.new.items
        around.entry.guards.now (leaders_by around.entry.levels.now counts.now) (banks_by
        spans.now around.entry.levels.now named) (groups_by around.entry.levels.now shifts)
        copies.items) }
{
    count_none(numbers);
    let mut copies = no_copies(alloc);
    let mut tally = no_tally();
    let count = path_count(around.guards);
    for number in 0..count {
        let leader = leader_of(around.levels, counts, number);
        let leads = is_leader(leader, number);
        let bank = bank_at(spans, around.levels, named, number);
        let group = rank_at(around.levels, shifts, number);
        let (next, place) = place_next(tally, numbers, group, bank, leads)?;
        let guard = guard_at(around.guards, number);
        add_copy(draft, &mut copies, number, leader, bank, place, guard)?;
        tally = next;
    }
    count_none(numbers);
    Ok(copies)
}

/// The copies of an access of a memory.
pub fn copies_of(
    scene: &Scene<'_>,
    around: Around<'_>,
    draft: &mut Draft,
    numbers: &mut Vec<usize>,
    memory: usize,
    access: &Expr,
    writes: bool,
) -> Result<Vec<AccessAt>, NoMemory>
    ensures { IfOk result (λ copies. MakesCopies draft.old draft.new scene.now around.entry
        numbers.new.items (standing_at scene.now around.entry memory access.now.place (form_seen
        access.now.form) writes) copies.items) }
{
    let counts = counts_of(scene, around.levels.len(), access, writes)?;
    let (spans, named) = bank_told(scene, around.levels, memory, access)?;
    let shifts = shifts_through(scene, access);
    copies_by(
        scene.alloc,
        around,
        draft,
        numbers,
        counts.as_slice(),
        spans.as_slice(),
        named,
        shifts,
    )
}
