//! What events do to banks: accesses claim them with numbers of keys. Claims of banks in a row are kept as one.

ghost use Rattle.std.specs.Prelude.{◌≡◌, ◌≤◌, ◌<◌, ◌+◌, true, nat_lt, None, IfOk, OnOk, length};
ghost use Rattle.dh_tree.specs.Memories.{memories_of, number_in, table_of};
ghost use Rattle.dh_tree.specs.Seen.{form_seen, program_seen};
ghost use Rattle.dh_tree.specs.Shapes.{IsProgramTable};
ghost use Rattle.dh_ways.specs.CutStands.{HasFewWays};
ghost use Rattle.dh_ways.specs.Leading.{LeadsTo};
ghost use Rattle.dh_ways.specs.Seen.{way_seen};
ghost use Rattle.dh_events.specs.Accesses.{entity_in, loops_listed};
ghost use Rattle.dh_ports.specs.Carriers.{claims_carried, IsCarrier};
ghost use Rattle.dh_ports.specs.Claims.{claim_in, claims_from, NamesMemory, NamesView};
ghost use Rattle.dh_ports.specs.Copies.{copies_round};
ghost use Rattle.dh_ports.specs.EventMoves.{claims_by, moves_at, moves_by, HasFewCopiesAt};
ghost use Rattle.dh_ports.specs.Layouts.{AllWaysLead, AreRoundsOf, AreScopesNoted, HaveFewCopies, IsLayout, NotesViews};
ghost use Rattle.dh_ports.specs.Runs as definitions;
ghost use Rattle.dh_ports.specs.Runs.{moves_in, one_claim, row_to, AddsBehind, AddsMoves};
ghost use Rattle.dh_ports.specs.Tallies.{IsReadyTally};
ghost use Rattle.dh_base.specs.Limits.{most_copies};

use crate::banks::{bank_bases, bank_count, bank_reached, entity_of, number_of};
use crate::carrying::{Carrier, carries};
use crate::copies::Copied;
use crate::counting::keys_reaching;
use crate::grouping::keys_through;
use crate::keeping::KeyTally;
use crate::leading::carriers_of;
use dh_base::NoMemory;
use dh_events::{Event, Nests, Scope, loops_round, note_ways};
use dh_tree::{Counter, Dim, Expr, Typed};
use dh_ways::{Hidden, WayRef, WayTable, ways_and_hidden};
use std::alloc::Global;

/// What an event does to banks.
#[derive(Clone, Copy)]
pub enum Move {
    /// An access reaches a bank.
    Claim {
        /// The place of the access among the events.
        event: usize,
        /// The bank, by its number among all banks.
        slot: usize,
        /// With how many keys.
        keys: usize,
    },
    /// Parts begin of which no two accesses meet.
    Begin,
    /// The next of these parts begins.
    Next,
    /// The parts end.
    End,
}

/// A move, and the same to the banks behind its own: an access through a shift or a shrunk view reaches many banks in
/// a row, with as many keys each.
#[derive(Clone, Copy)]
pub struct Run {
    /// The first of the moves.
    pub first: Move,
    /// The number behind that of the last bank; 1 where no bank is claimed.
    pub end: usize,
}

/// What is known of a program's loops, memories and views.
#[derive(Drop)]
pub struct ProgramLayout {
    /// For each memory the number of its first bank among all banks, and last the number of all banks.
    pub bases: Vec<usize>,
    /// By the number of each unrolled loop the unrolled loops round it, and itself.
    pub rounds: Vec<Vec<Counter>>,
    /// By its entity where each variable is declared; empty where no loop is unrolled.
    pub scopes: Vec<Option<Scope>>,
    /// The views with their ways.
    pub ways: WayTable,
    /// By the place of each view how charges are carried through it.
    pub carriers: Vec<Carrier>,
}

/// Notes behind the variables of a body where its views and what they keep are declared; nothing where no loop is
/// unrolled.
fn declare_views(
    rounds: &[Vec<Counter>],
    scopes: &mut Vec<Option<Scope>>,
    ways: &WayTable,
    hidden: &[Hidden],
) -> Result<(), NoMemory>
    ensures { OnOk result (NotesViews ways.now hidden.now rounds.now scopes.old.items
        scopes.new.items) }
{
    if rounds.is_empty() {
        return Ok(());
    }
    note_ways(scopes, ways, hidden)?;
    Ok(())
}

/// The layout of a program of which this is noted.
pub fn layout_of(alloc: Global, typed: &Typed, nests: Nests) -> Result<ProgramLayout, NoMemory>
    requires table { IsProgramTable (table_of (program_seen typed.now)) }
    requires leads { AllWaysLead (program_seen typed.now) }
    requires few { HasFewWays (program_seen typed.now) }
    requires rounds { AreRoundsOf (program_seen typed.now) nests.rounds.items }
    requires scopes { AreScopesNoted (program_seen typed.now) nests.rounds.items
        nests.scopes.items }
    ensures { IfOk result (λ l. IsLayout (program_seen typed.now) l) }
{
    let Nests {
        stages: _stages,
        rounds,
        mut scopes,
    } = nests;
    let bases = bank_bases(alloc, typed.memories().as_slice())?;
    let (ways, hidden) = ways_and_hidden(alloc, typed)?;
    let carriers = carriers_of(alloc, &ways)?;
    let variables = hidden.as_slice();
    declare_views(rounds.as_slice(), &mut scopes, &ways, variables)?;
    Ok(ProgramLayout {
        bases,
        rounds,
        scopes,
        ways,
        carriers,
    })
}

/// The number of the bank that a move claims; 0 where it claims none.
pub fn slot_of(next: Move) -> usize
    ensures { result ≡ definitions.claimed_slot next }
{
    match next {
        Move::Claim { slot, .. } => slot,
        Move::Begin | Move::Next | Move::End => 0,
    }
}

/// The move that does the same to another bank.
pub fn at_slot(next: Move, slot: usize) -> Move
    ensures { result ≡ definitions.at_slot next slot }
{
    match next {
        Move::Claim { event, keys, .. } => Move::Claim { event, slot, keys },
        Move::Begin => Move::Begin,
        Move::Next => Move::Next,
        Move::End => Move::End,
    }
}

/// Whether a move is a claim by this access with so many keys.
fn claims_so(first: Move, event: usize, keys: usize) -> bool
    ensures { result ≡ definitions.claims_so first event keys }
{
    match first {
        Move::Claim {
            event: other,
            keys: each,
            ..
        } => other == event && each == keys,
        Move::Begin | Move::Next | Move::End => false,
    }
}

/// Whether a bank stands behind those of a run.
fn is_next(last: Run, slot: usize) -> bool
    ensures { result ≡ definitions.is_next last slot }
{
    slot_of(last.first) < last.end && last.end == slot
}

/// Whether the claim of a bank goes on with a run.
fn goes_on(last: Run, event: usize, slot: usize, keys: usize) -> bool
    ensures { result ≡ definitions.claim_extends_run last event slot keys }
{
    claims_so(last.first, event, keys) && is_next(last, slot)
}

/// Adds a move, and the same to the banks in front of an end.
fn push_run(moves: &mut Vec<Run>, first: Move, end: usize) -> Result<(), NoMemory>
    ensures { OnOk result (AddsMoves moves.old moves.new (row_to first end)) }
{
    moves.push(Run { first, end })?;
    Ok(())
}

/// Adds the claim of a bank as a run of its own.
fn push_one(moves: &mut Vec<Run>, event: usize, slot: usize, keys: usize) -> Result<(), NoMemory>
    requires few { slot < 2097152 }
    ensures { OnOk result (AddsMoves moves.old moves.new (one_claim event slot keys)) }
{
    push_run(moves, Move::Claim { event, slot, keys }, slot + 1)
}

/// Adds a run, and the claim of a bank behind it as a run of its own.
fn push_both(
    moves: &mut Vec<Run>,
    last: Run,
    event: usize,
    slot: usize,
    keys: usize,
) -> Result<(), NoMemory>
    requires few { slot < 2097152 }
    ensures { OnOk result (AddsBehind moves.old moves.new last (one_claim event slot keys)) }
{
    push_run(moves, last.first, last.end)?;
    push_one(moves, event, slot, keys)
}

/// Adds a run and the claim of a bank behind it: as one where the claim goes on with the run.
fn push_behind(
    moves: &mut Vec<Run>,
    last: Run,
    event: usize,
    slot: usize,
    keys: usize,
) -> Result<(), NoMemory>
    requires few { slot < 2097152 }
    ensures { OnOk result (AddsBehind moves.old moves.new last (one_claim event slot keys)) }
{
    if goes_on(last, event, slot, keys) {
        push_run(moves, last.first, slot + 1)
    } else {
        push_both(moves, last, event, slot, keys)
    }
}

/// Adds the claim of a bank, to the run before it where it goes on with that, by taking that run off.
fn push_joined(moves: &mut Vec<Run>, event: usize, slot: usize, keys: usize) -> Result<(), NoMemory>
    requires few { slot < 2097152 }
    ensures { OnOk result (AddsMoves moves.old moves.new (one_claim event slot keys)) }
{
    match moves.pop() {
        Some(last) => push_behind(moves, last, event, slot, keys),
        None => push_one(moves, event, slot, keys),
    }
}

/// Whether the claim of a bank goes on with the last run.
fn goes_behind(moves: &[Run], event: usize, slot: usize, keys: usize) -> bool {
    let many = moves.len();
    if many > 0 {
        goes_on(moves[many - 1], event, slot, keys)
    } else {
        false
    }
}

/// Adds the claim of a bank, to the run before it where it goes on with that.
fn push_claim(moves: &mut Vec<Run>, event: usize, slot: usize, keys: usize) -> Result<(), NoMemory>
    requires few { slot < 2097152 }
    ensures { OnOk result (AddsMoves moves.old moves.new (one_claim event slot keys)) }
{
    // most claims go on with none, and then no run has to be taken off
    if goes_behind(moves.as_slice(), event, slot, keys) {
        push_joined(moves, event, slot, keys)
    } else {
        push_one(moves, event, slot, keys)
    }
}

/// Adds the claim of one bank of a memory whose banks begin at a number, where it has the bank.
fn claim_one(
    moves: &mut Vec<Run>,
    event: usize,
    base: usize,
    banks: u64,
    bank: u64,
) -> Result<(), NoMemory>
    requires few { base + banks ≤ 2097152 }
    ensures { OnOk result (AddsMoves moves.old moves.new (claim_in event base banks bank)) }
{
    if bank < banks {
        let slot = base + bank as usize;
        push_claim(moves, event, slot, 1)?;
    }
    Ok(())
}

/// Adds the claims of the banks of a memory that are reached, whose banks begin at a number.
fn claim_all(
    moves: &mut Vec<Run>,
    event: usize,
    base: usize,
    counts: &[usize],
) -> Result<(), NoMemory>
    requires few { base + length counts.now ≤ 2097152 }
    ensures { OnOk result (AddsMoves moves.old moves.new (claims_from event base counts.now)) }
{
    for bank in 0..counts.len() {
        if counts[bank] > 0 {
            push_claim(moves, event, base + bank, counts[bank])?;
        }
    }
    Ok(())
}

/// Whether a bank is one of so many.
fn is_within(bank: u64, banks: u64) -> bool
    ensures { result ≡ nat_lt bank banks }
{
    bank < banks
}

/// Adds the claims of the banks of a memory to which one key on a bank of a view is carried, where a shift stands
/// between: of all of them at once.
fn claim_evenly(
    moves: &mut Vec<Run>,
    event: usize,
    base: usize,
    carrier: &Carrier,
    bank: u64,
) -> Result<(), NoMemory>
    requires few { base + length carrier.now.sources.items ≤ 2097152 }
    requires even { carrier.now.evenly ≡ true }
    ensures { OnOk result (AddsMoves moves.old moves.new
        (claims_carried carrier.now event base bank)) }
{
    let many = carrier.sources.len();
    let end = base + many;
    if is_within(bank, carrier.banks) {
        let first = Move::Claim {
            event,
            slot: base,
            keys: 1,
        };
        push_run(moves, first, end)
    } else {
        Ok(())
    }
}

/// Adds the claims of the banks of a memory to which one key on a bank of a view is carried, bank by bank.
fn claim_each(
    moves: &mut Vec<Run>,
    event: usize,
    base: usize,
    carrier: &Carrier,
    bank: u64,
) -> Result<(), NoMemory>
    requires few { base + length carrier.now.sources.items ≤ 2097152 }
    ensures { OnOk result (AddsMoves moves.old moves.new
        (claims_carried carrier.now event base bank)) }
{
    for behind in 0..carrier.sources.len() {
        if carries(carrier, bank, behind) {
            let slot = base + behind;
            push_claim(moves, event, slot, 1)?;
        }
    }
    Ok(())
}

/// Adds the claims of the banks of a memory to which one key on a bank of a view is carried.
fn claim_carried(
    moves: &mut Vec<Run>,
    event: usize,
    base: usize,
    carrier: &Carrier,
    bank: u64,
) -> Result<(), NoMemory>
    requires few { base + length carrier.now.sources.items ≤ 2097152 }
    ensures { OnOk result (AddsMoves moves.old moves.new
        (claims_carried carrier.now event base bank)) }
{
    if carrier.evenly {
        claim_evenly(moves, event, base, carrier, bank)
    } else {
        claim_each(moves, event, base, carrier, bank)
    }
}

/// An access that claims banks.
#[derive(Clone, Copy)]
struct Claimant<'b> {
    /// Its place among the events.
    event: usize,
    /// The access.
    access: &'b Expr,
    /// Whether it writes.
    writes: bool,
    /// The unrolled loop round it that stands innermost.
    round: Option<u32>,
}

/// Adds the claims of an access of the memory of a number.
fn claim_memory(
    alloc: Global,
    typed: &Typed,
    layout: &ProgramLayout,
    tally: &mut KeyTally,
    moves: &mut Vec<Run>,
    memory: usize,
    claimant: Claimant<'_>,
) -> Result<(), NoMemory>
    requires table { IsProgramTable (table_of (program_seen typed.now)) }
    requires layout { IsLayout (program_seen typed.now) layout.now }
    requires copies { copies_round (loops_listed layout.now.rounds.items claimant.round) ≤ most_copies }
    requires named { NamesMemory (program_seen typed.now) claimant.access.now memory }
    requires past { IsReadyTally tally.old }
    ensures claims { OnOk result (AddsMoves moves.old moves.new
        (claims_by typed.now layout.now claimant.entry)) }
    ensures past { OnOk result (IsReadyTally tally.new) }
{
    let Some(entry) = typed.memories().as_slice().get(memory) else {
        return Ok(());
    };
    let dims = entry.shape.dims.as_slice();
    let banks = bank_count(dims);
    let base = layout.bases[memory];
    let loops = loops_round(layout.rounds.as_slice(), claimant.round);
    if loops.is_empty() {
        let bank = bank_reached(typed, dims, claimant.access);
        return claim_one(moves, claimant.event, base, banks, bank);
    }
    let copied = Copied {
        access: claimant.access,
        writes: claimant.writes,
        loops,
        dims,
        banks,
    };
    let scopes = layout.scopes.as_slice();
    keys_reaching(alloc, typed, scopes, tally, copied)?;
    let counts = tally.direct.counts.as_slice();
    claim_all(moves, claimant.event, base, counts)
}

/// Adds the claims of an access through the views on a way.
fn claim_view(
    alloc: Global,
    typed: &Typed,
    layout: &ProgramLayout,
    tally: &mut KeyTally,
    moves: &mut Vec<Run>,
    way: &WayRef<'_>,
    carrier: &Carrier,
    claimant: Claimant<'_>,
) -> Result<(), NoMemory>
    requires table { IsProgramTable (table_of (program_seen typed.now)) }
    requires layout { IsLayout (program_seen typed.now) layout.now }
    requires copies { copies_round (loops_listed layout.now.rounds.items claimant.round) ≤ most_copies }
    requires leads { LeadsTo (memories_of (program_seen typed.now)) (way_seen way.now) }
    requires named { NamesView (program_seen typed.now) claimant.access.now (way_seen way.now) }
    requires carrier { IsCarrier (way_seen way.now) carrier.now }
    requires past { IsReadyTally tally.old }
    ensures claims { OnOk result (AddsMoves moves.old moves.new
        (claims_by typed.now layout.now claimant.entry)) }
    ensures past { OnOk result (IsReadyTally tally.new) }
{
    let ends_at = way.memory();
    let Some(memory) = number_of(typed, ends_at) else {
        return Ok(());
    };
    let base = layout.bases[memory];
    let named = way.view();
    let dims = named.shape.dims.as_slice();
    let loops = loops_round(layout.rounds.as_slice(), claimant.round);
    if loops.is_empty() {
        let bank = bank_reached(typed, dims, claimant.access);
        return claim_carried(moves, claimant.event, base, carrier, bank);
    }
    let copied = Copied {
        access: claimant.access,
        writes: claimant.writes,
        loops,
        dims,
        banks: carrier.banks,
    };
    let scopes = layout.scopes.as_slice();
    keys_through(alloc, typed, scopes, tally, way, carrier, copied)?;
    claim_all(moves, claimant.event, base, tally.last.sums.as_slice())
}

/// Adds the claims of an access of what is no memory, by its entity.
fn claim_led(
    alloc: Global,
    typed: &Typed,
    layout: &ProgramLayout,
    tally: &mut KeyTally,
    moves: &mut Vec<Run>,
    entity: Option<u32>,
    claimant: Claimant<'_>,
) -> Result<(), NoMemory>
    requires table { IsProgramTable (table_of (program_seen typed.now)) }
    requires layout { IsLayout (program_seen typed.now) layout.now }
    requires leads { AllWaysLead (program_seen typed.now) }
    requires copies { copies_round (loops_listed layout.now.rounds.items claimant.round) ≤ most_copies }
    requires entity { entity ≡ entity_in (form_seen claimant.access.now.form) }
    requires other { number_in (memories_of (program_seen typed.now)) entity ≡ None }
    requires past { IsReadyTally tally.old }
    ensures claims { OnOk result (AddsMoves moves.old moves.new
        (claims_by typed.now layout.now claimant.entry)) }
    ensures past { OnOk result (IsReadyTally tally.new) }
{
    let Some(place) = layout.ways.place_of(entity) else {
        return Ok(());
    };
    let way = layout.ways.at(place);
    let each = layout.carriers.as_slice();
    claim_view(
        alloc,
        typed,
        layout,
        tally,
        moves,
        &way,
        &each[place],
        claimant,
    )
}

/// Adds the claims of an access.
fn claim(
    alloc: Global,
    typed: &Typed,
    layout: &ProgramLayout,
    tally: &mut KeyTally,
    moves: &mut Vec<Run>,
    claimant: Claimant<'_>,
) -> Result<(), NoMemory>
    requires table { IsProgramTable (table_of (program_seen typed.now)) }
    requires layout { IsLayout (program_seen typed.now) layout.now }
    requires leads { AllWaysLead (program_seen typed.now) }
    requires copies { copies_round (loops_listed layout.now.rounds.items claimant.round) ≤ most_copies }
    requires past { IsReadyTally tally.old }
    ensures claims { OnOk result (AddsMoves moves.old moves.new
        (claims_by typed.now layout.now claimant.entry)) }
    ensures past { OnOk result (IsReadyTally tally.new) }
{
    let entity = entity_of(claimant.access);
    let Some(memory) = number_of(typed, entity) else {
        return claim_led(alloc, typed, layout, tally, moves, entity, claimant);
    };
    claim_memory(alloc, typed, layout, tally, moves, memory, claimant)
}

/// Adds what an event does to banks.
#[inline(always)]
pub fn move_banks(
    alloc: Global,
    typed: &Typed,
    layout: &ProgramLayout,
    tally: &mut KeyTally,
    moves: &mut Vec<Run>,
    place: usize,
    event: Event<'_>,
) -> Result<(), NoMemory>
    requires table { IsProgramTable (table_of (program_seen typed.now)) }
    requires layout { IsLayout (program_seen typed.now) layout.now }
    requires leads { AllWaysLead (program_seen typed.now) }
    requires copies { HasFewCopiesAt layout.now.rounds.items event }
    requires past { IsReadyTally tally.old }
    ensures moves { OnOk result (AddsMoves moves.old moves.new
        (moves_at typed.now layout.now place event.entry)) }
    ensures past { OnOk result (IsReadyTally tally.new) }
{
    match event {
        Event::Touch {
            access,
            writes,
            round,
            ..
        } => {
            let claimant = Claimant {
                event: place,
                access,
                writes,
                round,
            };
            claim(alloc, typed, layout, tally, moves, claimant)
        }
        Event::Begins => push_run(moves, Move::Begin, 1),
        Event::Next => push_run(moves, Move::Next, 1),
        Event::Ends => push_run(moves, Move::End, 1),
        Event::Assigned { .. } | Event::ArmBegins | Event::ArmEnds => Ok(()),
    }
}

/// What events do to the banks of a program, in runs.
pub fn all_moves(
    alloc: Global,
    typed: &Typed,
    layout: &ProgramLayout,
    events: &[Event<'_>],
) -> Result<Vec<Run>, NoMemory>
    requires table { IsProgramTable (table_of (program_seen typed.now)) }
    requires layout { IsLayout (program_seen typed.now) layout.now }
    requires leads { AllWaysLead (program_seen typed.now) }
    requires copies { HaveFewCopies layout.now.rounds.items events.now }
    ensures { IfOk result (λ moves. moves_in moves.items
        ≡ moves_by typed.now layout.now events.now) }
{
    // most events come to one run at most
    let mut moves = Vec::with_capacity(alloc, events.len())?;
    let mut tally = KeyTally::new(alloc);
    for event in 0..events.len() {
        move_banks(
            alloc,
            typed,
            layout,
            &mut tally,
            &mut moves,
            event,
            events[event],
        )?;
    }
    Ok(moves)
}
