//! Which reads come behind a write of their bank in their phase.

ghost use Rattle.std.specs.Prelude.{◌≡◌, Some, IfOk, OnOk, length, slice_get};
ghost use Rattle.std.specs.List.{AllByRecursion};
ghost use Rattle.dh_tree.specs.LeastBreach.{least_of};
ghost use Rattle.dh_events.specs.Classes.{KeysAreDistinct, ExtendsKeys};
ghost use Rattle.dh_ports.specs.Levels.{LevelsKept};
ghost use Rattle.dh_ports.specs.Orders as orders;
ghost use Rattle.dh_ports.specs.Orders.{AreMarked, AreRead, MarksRead};
ghost use Rattle.dh_ports.specs.Passing.{KeepsLeastBreachFrom, KeepsTo};
ghost use Rattle.dh_ports.specs.Runs.{moves_in, moves_of_run};
ghost use Rattle.dh_ports.specs.Scanned as scanned;
ghost use Rattle.dh_ports.specs.Scanned.{IsMoveOf, KeepsLate};

use crate::levels::{Levels, Step};
use crate::moves::{Move, Run, at_slot, slot_of};
use crate::sharing::ones;
use crate::spending::place_in;
use dh_base::{NoMemory, Place, Rule};
use dh_events::{Classes, Event, Key, get_at, set_at};
use dh_tree::{Breach, keep_least};
use std::alloc::Global;

/// The key of a bank in a phase.
fn bank_key(phase: u32, bank: usize) -> Key
    ensures { result ≡ scanned.bank_key phase bank }
{
    Key {
        phase,
        entity: 0,
        element: bank,
        newest: 0,
    }
}

/// Numbers the key of a bank in a phase, and marks the phase.
fn note_key(
    classes: &mut Classes,
    marked: &mut Vec<usize>,
    phase: u32,
    bank: usize,
) -> Result<usize, NoMemory>
    ensures stands { IfOk result (λ slot. slice_get classes.new slot
        ≡ Some (scanned.bank_key phase bank)) }
    ensures extends { IfOk result (λ _. ExtendsKeys classes.old classes.new) }
    ensures marked { IfOk result (λ _. AreMarked classes.old marked.old.items
        → AreMarked classes.new marked.new.items) }
{
    set_at(marked, phase, 1)?;
    classes.number(bank_key(phase, bank))
}

/// Numbers the key of a claim of a write.
fn note_write(
    classes: &mut Classes,
    marked: &mut Vec<usize>,
    events: &[Event<'_>],
    next: Move,
) -> Result<(), NoMemory>
    requires within { IsMoveOf (length events.now) next }
    ensures written { OnOk result (scanned.IsNotedClaim classes.new events.now next) }
    ensures extends { OnOk result (ExtendsKeys classes.old classes.new) }
    ensures marked { OnOk result (AreMarked classes.old marked.old.items
        → AreMarked classes.new marked.new.items) }
{
    if let Move::Claim { event, slot, .. } = next {
        if let Event::Touch {
            writes: true,
            phase,
            ..
        } = events[event]
        {
            note_key(classes, marked, phase, slot)?;
        }
    }
    Ok(())
}

/// Marks the phase of a read.
fn mark_read(read: &mut Vec<usize>, event: Event<'_>) -> Result<(), NoMemory>
    ensures { OnOk result (MarksRead read.old.items read.new.items event.entry) }
{
    match event {
        Event::Touch { writes: true, .. } => Ok(()),
        Event::Touch {
            writes: false,
            phase,
            ..
        } => set_at(read, phase, 1),
        Event::Assigned { .. }
        | Event::ArmBegins
        | Event::ArmEnds
        | Event::Begins
        | Event::Next
        | Event::Ends => Ok(()),
    }
}

/// By phase 1 where a read stands in it.
fn read_phases(alloc: Global, events: &[Event<'_>]) -> Result<Vec<usize>, NoMemory>
    ensures { IfOk result (λ read. AreRead events.now read.items) }
{
    let mut read = Vec::new(alloc);
    for event in 0..events.len() {
        mark_read(&mut read, events[event])?;
    }
    Ok(read)
}

/// Numbers the keys of the claims of a run, where they are of a write in a phase in which something is read.
fn note_run(
    classes: &mut Classes,
    marked: &mut Vec<usize>,
    read: &[usize],
    events: &[Event<'_>],
    run: Run,
) -> Result<(), NoMemory>
    requires read { AreRead events.now read.now }
    requires within { AllByRecursion (IsMoveOf (length events.now)) (moves_of_run run) }
    ensures written { OnOk result (AllByRecursion (scanned.IsNotedFor classes.new events.now)
        (moves_of_run run)) }
    ensures extends { OnOk result (ExtendsKeys classes.old classes.new) }
    ensures marked { OnOk result (AreMarked classes.old marked.old.items
        → AreMarked classes.new marked.new.items) }
{
    if is_quiet_move(read, events, run.first) {
        return Ok(());
    }
    let from = slot_of(run.first);
    for slot in from..run.end {
        let next = at_slot(run.first, slot);
        note_write(classes, marked, events, next)?;
    }
    Ok(())
}

/// The keys of banks in phases in which they are written and something is read; these phases are marked.
fn written_banks(
    alloc: Global,
    marked: &mut Vec<usize>,
    read: &[usize],
    events: &[Event<'_>],
    moves: &[Run],
) -> Result<Classes, NoMemory>
    requires read { AreRead events.now read.now }
    requires within { AllByRecursion (IsMoveOf (length events.now)) (moves_in moves.now) }
    ensures written { IfOk result (λ classes. AllByRecursion
        (scanned.IsNotedFor classes events.now) (moves_in moves.now)) }
    ensures marked { IfOk result (λ classes. AreMarked classes marked.new.items) }
{
    let mut classes = Classes::new(alloc);
    for run in moves {
        note_run(&mut classes, marked, read, events, *run)?;
    }
    Ok(classes)
}

/// Whether an event is an access in a phase that is not marked.
fn is_quiet(marked: &[usize], event: Event<'_>) -> bool
    ensures { result ≡ orders.is_quiet marked.now event.entry }
{
    match event {
        Event::Touch { phase, .. } => get_at(marked, phase) == 0,
        Event::Assigned { .. }
        | Event::ArmBegins
        | Event::ArmEnds
        | Event::Begins
        | Event::Next
        | Event::Ends => false,
    }
}

/// Whether the event of a number is one, if there is one.
fn is_quiet_at(marked: &[usize], events: &[Event<'_>], event: usize) -> bool
    ensures { result ≡ orders.is_quiet_at marked.now (slice_get events.now event) }
{
    if event < events.len() {
        is_quiet(marked, events[event])
    } else {
        false
    }
}

/// Whether a move claims a bank for one.
fn is_quiet_move(marked: &[usize], events: &[Event<'_>], next: Move) -> bool
    ensures { result ≡ orders.is_quiet_move marked.now events.now next }
{
    match next {
        Move::Claim { event, .. } => is_quiet_at(marked, events, event),
        Move::Begin | Move::Next | Move::End => false,
    }
}

/// The step that looks at the slot of a key, which takes so much of it.
fn step_at(classes: &Classes, key: Key, takes: usize) -> Step
    ensures { scanned.StepsAt classes.now key takes result }
{
    match classes.find(key) {
        Some(slot) => Step::Access { slot, takes },
        None => Step::Other,
    }
}

/// The step that the claim of a bank is, where an event is an access: a write takes what is left of its bank in its
/// phase, a read only looks.
fn claim_step(classes: &Classes, event: Event<'_>, bank: usize) -> Step
    ensures { scanned.ClaimOrders classes.now event.entry bank result }
{
    match event {
        Event::Touch { writes, phase, .. } => {
            let takes = if writes { 1 } else { 0 };
            step_at(classes, bank_key(phase, bank), takes)
        }
        Event::Assigned { .. }
        | Event::ArmBegins
        | Event::ArmEnds
        | Event::Begins
        | Event::Next
        | Event::Ends => Step::Other,
    }
}

/// The step that a move is.
fn ordering_step(classes: &Classes, events: &[Event<'_>], next: Move) -> Step
    requires within { IsMoveOf (length events.now) next }
    ensures { scanned.IsOrdering classes.now events.now next result }
{
    match next {
        Move::Claim { event, slot, .. } => claim_step(classes, events[event], slot),
        Move::Begin => Step::Begin,
        Move::Next => Step::Next,
        Move::End => Step::End,
    }
}

/// Whether a step reads where nothing is left.
fn is_late(step: Step, left: usize) -> bool
    ensures { result ≡ scanned.is_late step left }
{
    match step {
        Step::Access { takes, .. } => takes == 0 && left == 0,
        Step::Other | Step::Begin | Step::Next | Step::End | Step::Back => false,
    }
}

/// Keeps the breach of a read at a place, if there is one.
fn keep_at(kept: &mut Option<Breach>, place: Option<Place>)
    ensures { kept.new ≡ least_of kept.old (scanned.late_at place) }
{
    if let Some(place) = place {
        keep_least(
            kept,
            Breach {
                rule: Rule::ReadAfterWrite,
                place,
            },
        );
    }
}

/// Keeps the least of the breaches of reads of a run that find nothing left, and takes what the run takes.
fn keep_run(
    alloc: Global,
    kept: &mut Option<Breach>,
    events: &[Event<'_>],
    classes: &Classes,
    marked: &[usize],
    levels: &mut Levels,
    run: Run,
) -> Result<(), NoMemory>
    requires distinct { KeysAreDistinct classes.now }
    requires marked { AreMarked classes.now marked.now }
    requires within { AllByRecursion (IsMoveOf (length events.now)) (moves_of_run run) }
    requires kept { LevelsKept levels.old }
    ensures { OnOk result (KeepsTo classes.now events.now kept.old levels.old
        (moves_of_run run) kept.new levels.new) }
{
    // where nothing is written in the phase, no key has to be looked for
    if is_quiet_move(marked, events, run.first) {
        return Ok(());
    }
    let from = slot_of(run.first);
    for slot in from..run.end {
        let next = at_slot(run.first, slot);
        let step = ordering_step(classes, events, next);
        if is_late(step, levels.left_at(step)) {
            keep_at(kept, place_in(events, next));
        }
        levels.step(alloc, step)?;
    }
    Ok(())
}

/// Keeps the least of the breaches of reads that find nothing left, from so much of each slot on.
fn keep_all(
    alloc: Global,
    kept: &mut Option<Breach>,
    events: &[Event<'_>],
    classes: &Classes,
    marked: &[usize],
    starts: Vec<usize>,
    moves: &[Run],
) -> Result<(), NoMemory>
    requires distinct { KeysAreDistinct classes.now }
    requires marked { AreMarked classes.now marked.now }
    requires within { AllByRecursion (IsMoveOf (length events.now)) (moves_in moves.now) }
    ensures { OnOk result (KeepsLeastBreachFrom classes.now events.now starts.items (moves_in moves.now)
        kept.old kept.new) }
{
    let mut levels = Levels::new(alloc, starts);
    for run in moves {
        keep_run(alloc, kept, events, classes, marked, &mut levels, *run)?;
    }
    Ok(())
}

/// Keeps the least of the breaches of reads that come behind a write of a bank that they reach, in their
/// phase, where the two may meet.
pub fn keep_late(
    alloc: Global,
    kept: &mut Option<Breach>,
    events: &[Event<'_>],
    moves: &[Run],
) -> Result<(), NoMemory>
    requires within { AllByRecursion (IsMoveOf (length events.now)) (moves_in moves.now) }
    ensures { OnOk result (KeepsLate events.now (moves_in moves.now) kept.old kept.new) }
{
    let read = read_phases(alloc, events)?;
    let mut marked = Vec::new(alloc);
    let classes = written_banks(alloc, &mut marked, read.as_slice(), events, moves)?;
    let free = ones(alloc, classes.len())?;
    let phases = marked.as_slice();
    keep_all(alloc, kept, events, &classes, phases, free, moves)
}
