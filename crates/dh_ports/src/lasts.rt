//! Whether a read may come behind a write of its bank in its phase, by the last of the phases in which each bank was
//! written so far. In most programs none does, and then no more is needed to tell so.

ghost use Rattle.std.specs.Prelude.{◌≡◌, ◌&&◌, nat_lt, OnOk, length, slice_index};
ghost use Rattle.std.specs.List.{AllByRecursion};
ghost use Rattle.dh_ports.specs.Ahead as definitions;
ghost use Rattle.dh_ports.specs.Ahead.{NotesMoves};
ghost use Rattle.dh_ports.specs.Runs.{moves_in, moves_of_run};
ghost use Rattle.dh_ports.specs.Scanned.{IsMoveOf};

use crate::moves::{Move, Run, at_slot, slot_of};
use dh_base::NoMemory;
use dh_events::{Event, get_number, set_number};
use std::alloc::Global;

/// Where banks were written so far.
#[derive(Drop)]
pub struct LastWrites {
    /// By the number of each bank the last of the phases in which it was written; 0 before any.
    pub phases: Vec<usize>,
    /// Whether each read stood ahead of the writes of its bank in its phase and in later ones.
    pub ahead: bool,
}

impl LastWrites {
    /// No bank was written.
    pub fn new(alloc: Global) -> LastWrites {
        LastWrites {
            phases: Vec::new(alloc),
            ahead: true,
        }
    }
}

/// Whether a phase is behind the last one in which a bank was written.
fn is_later(phases: &[usize], bank: usize, phase: u32) -> bool
    ensures { result ≡ nat_lt (slice_index phases.now bank) phase }
{
    get_number(phases, bank) < phase as usize
}

/// Whether two things are so.
fn both(one: bool, other: bool) -> bool
    ensures { result ≡ (one && other) }
{
    one && other
}

/// Notes that a bank is written in a phase.
fn raise(phases: &mut Vec<usize>, bank: usize, phase: u32) -> Result<(), NoMemory>
    ensures { OnOk result (definitions.Raises phases.old.items phases.new.items bank phase) }
{
    if is_later(phases.as_slice(), bank, phase) {
        set_number(phases, bank, phase as usize)
    } else {
        Ok(())
    }
}

/// Notes that a bank is read in a phase.
fn note_read(lasts: &mut LastWrites, bank: usize, phase: u32)
    ensures phases { lasts.new.phases.items ≡ lasts.old.phases.items }
    ensures ahead { lasts.new.ahead
        ≡ (lasts.old.ahead && nat_lt (slice_index lasts.old.phases.items bank) phase) }
{
    let later = is_later(lasts.phases.as_slice(), bank, phase);
    lasts.ahead = both(lasts.ahead, later);
}

/// Notes the claim of a bank by an event.
fn note_event(lasts: &mut LastWrites, event: Event<'_>, bank: usize) -> Result<(), NoMemory>
    ensures { OnOk result (definitions.NotesEvent lasts.old lasts.new event.entry bank) }
{
    match event {
        Event::Touch {
            writes: true,
            phase,
            ..
        } => raise(&mut lasts.phases, bank, phase),
        Event::Touch {
            writes: false,
            phase,
            ..
        } => {
            note_read(lasts, bank, phase);
            Ok(())
        }
        Event::Assigned { .. }
        | Event::ArmBegins
        | Event::ArmEnds
        | Event::Begins
        | Event::Next
        | Event::Ends => Ok(()),
    }
}

/// Notes a move.
fn note_move(lasts: &mut LastWrites, events: &[Event<'_>], next: Move) -> Result<(), NoMemory>
    requires within { IsMoveOf (length events.now) next }
    ensures { OnOk result (definitions.NotesMove events.now lasts.old lasts.new next) }
{
    match next {
        Move::Claim { event, slot, .. } => note_event(lasts, events[event], slot),
        Move::Begin | Move::Next | Move::End => Ok(()),
    }
}

/// Notes the moves of a run.
fn note_run(lasts: &mut LastWrites, events: &[Event<'_>], run: Run) -> Result<(), NoMemory>
    requires within { AllByRecursion (IsMoveOf (length events.now)) (moves_of_run run) }
    ensures { OnOk result (NotesMoves events.now lasts.old (moves_of_run run) lasts.new) }
{
    let from = slot_of(run.first);
    for slot in from..run.end {
        let next = at_slot(run.first, slot);
        note_move(lasts, events, next)?;
    }
    Ok(())
}

/// Notes the moves of runs.
pub fn note_runs(lasts: &mut LastWrites, events: &[Event<'_>], runs: &[Run]) -> Result<(), NoMemory>
    requires within { AllByRecursion (IsMoveOf (length events.now)) (moves_in runs.now) }
    ensures { OnOk result (NotesMoves events.now lasts.old (moves_in runs.now) lasts.new) }
{
    for run in runs {
        note_run(lasts, events, *run)?;
    }
    Ok(())
}
