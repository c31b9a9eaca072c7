//! Which accesses take ports of a bank of which too few are left.

ghost use Rattle.std.specs.Prelude.{◌≡◌, ◌≤◌, IfOk, length};
ghost use Rattle.std.specs.List.{AllByRecursion};
ghost use Rattle.dh_events.specs.Noted.{all_seen, event_seen};
ghost use Rattle.dh_ports.specs.Levels.{LevelsKept};
ghost use Rattle.dh_ports.specs.Passing.{ComesToSoFar};
ghost use Rattle.dh_ports.specs.Runs.{moves_in, moves_of_run};
ghost use Rattle.dh_ports.specs.Scanned as scanned;
ghost use Rattle.dh_ports.specs.Scanned.{IsMoveOf};
ghost use Rattle.dh_ports.specs.Walks as walks;
ghost use Rattle.dh_ports.specs.Walks.{KeptWhile, SpendsToSoFar};

use crate::levels::{Levels, Step};
use crate::moves::{Move, Run, at_slot, slot_of};
use dh_base::{NoMemory, Place};
use dh_events::Event;
use std::alloc::Global;

/// The step that a move is: an access takes a port for each of its keys, and none where it shares.
fn spending_step(shared: &[bool], next: Move) -> Step
    requires within { IsMoveOf (length shared.now) next }
    ensures { result ≡ scanned.spending_step shared.now next }
{
    match next {
        Move::Claim { event, slot, keys } => Step::Access {
            slot,
            takes: if shared[event] { 0 } else { keys },
        },
        Move::Begin => Step::Begin,
        Move::Next => Step::Next,
        Move::End => Step::End,
    }
}

/// The place of an event, where it is an access.
pub fn place_of(event: Event<'_>) -> Option<Place>
    ensures { result ≡ scanned.event_place (event_seen event.entry) }
{
    match event {
        Event::Touch { access, .. } => Some(access.place),
        Event::Assigned { .. }
        | Event::ArmBegins
        | Event::ArmEnds
        | Event::Begins
        | Event::Next
        | Event::Ends => None,
    }
}

/// The place of the access of a move.
pub fn place_in(events: &[Event<'_>], next: Move) -> Option<Place>
    requires within { IsMoveOf (length events.now) next }
    ensures { result ≡ scanned.move_place (all_seen events.now) next }
{
    match next {
        Move::Claim { event, .. } => place_of(events[event]),
        Move::Begin | Move::Next | Move::End => None,
    }
}

/// Whether a step takes more than is left.
fn is_beyond(step: Step, left: usize) -> bool
    ensures { result ≡ scanned.step_exceeds step left }
{
    match step {
        Step::Access { takes, .. } => left < takes,
        Step::Other | Step::Begin | Step::Next | Step::End | Step::Back => false,
    }
}

/// What moves come to, from what is left.
#[derive(Clone, Copy)]
pub enum Walked {
    /// None takes more than is left.
    Past,
    /// The place of the first that takes more than is left.
    Beyond(Option<Place>),
}

/// The place of the first move that takes more than is left, if there is one.
pub fn place_walked(walked: Walked) -> Option<Place>
    ensures { result ≡ walks.place_walked walked }
{
    match walked {
        Walked::Past => None,
        Walked::Beyond(place) => place,
    }
}

/// What the moves of a run come to, from what is left. Of their events and those before it is known whether they share.
fn spend_run(
    alloc: Global,
    events: &[Event<'_>],
    shared: &[bool],
    levels: &mut Levels,
    run: Run,
) -> Result<Walked, NoMemory>
    requires few { length shared.now ≤ length events.now }
    requires within { AllByRecursion (IsMoveOf (length shared.now)) (moves_of_run run) }
    requires kept { LevelsKept levels.old }
    ensures { IfOk result (λ walked. ComesToSoFar events.now shared.now levels.old
        (moves_of_run run) levels.new walked) }
{
    let from = slot_of(run.first);
    for slot in from..run.end {
        let next = at_slot(run.first, slot);
        let step = spending_step(shared, next);
        if is_beyond(step, levels.left_at(step)) {
            return Ok(Walked::Beyond(place_in(events, next)));
        }
        levels.step(alloc, step)?;
    }
    Ok(Walked::Past)
}

/// What the moves of runs come to, from what is left.
fn spend_all(
    alloc: Global,
    events: &[Event<'_>],
    shared: &[bool],
    levels: &mut Levels,
    moves: &[Run],
) -> Result<Walked, NoMemory>
    requires few { length shared.now ≤ length events.now }
    requires within { AllByRecursion (IsMoveOf (length shared.now)) (moves_in moves.now) }
    requires kept { LevelsKept levels.old }
    ensures { IfOk result (λ walked. ComesToSoFar events.now shared.now levels.old
        (moves_in moves.now) levels.new walked) }
{
    for run in moves {
        let walked = spend_run(alloc, events, shared, levels, *run)?;
        match walked {
            Walked::Past => {}
            Walked::Beyond(place) => return Ok(Walked::Beyond(place)),
        }
    }
    Ok(Walked::Past)
}

/// What moves and those of runs behind them come to.
pub fn spend_behind(
    alloc: Global,
    events: &[Event<'_>],
    shared: &[bool],
    levels: &mut Levels,
    walked: Walked,
    moves: &[Run],
) -> Result<Walked, NoMemory>
    requires few { length shared.now ≤ length events.now }
    requires within { AllByRecursion (IsMoveOf (length shared.now)) (moves_in moves.now) }
    requires kept { KeptWhile walked levels.old }
    ensures { IfOk result (λ after. SpendsToSoFar events.now shared.now walked levels.old
        (moves_in moves.now) after levels.new) }
{
    match walked {
        Walked::Past => spend_all(alloc, events, shared, levels, moves),
        Walked::Beyond(place) => Ok(Walked::Beyond(place)),
    }
}
