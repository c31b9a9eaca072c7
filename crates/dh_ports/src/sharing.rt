//! Which reads share an earlier one.

ghost use Rattle.std.specs.Prelude.{◌≡◌, ◌≤◌, ◌+◌, IfOk, length, replicate};
ghost use Rattle.dh_events.specs.Classes.{ExtendsKeys};
ghost use Rattle.dh_ports.specs.Levels.{LevelsKept};
ghost use Rattle.dh_ports.specs.SharedSoFar.{BeginsShared, NotesShare, SharesNext};
ghost use Rattle.dh_ports.specs.Scanned as scanned;
ghost use Rattle.dh_ports.specs.Scanned.{IsSharing};

use crate::banks::entity_of;
use crate::levels::{Levels, Step};
use dh_base::NoMemory;
use dh_events::{Classes, Event, Key};
use std::alloc::Global;

/// The key of an event that is a read, where its names stand for something: it is that of reads that are
/// equal, in one phase, and have no assignment between them to a variable in their indices.
pub fn read_key(event: Event<'_>) -> Option<Key>
    ensures { result ≡ scanned.read_key event.entry }
{
    match event {
        Event::Touch {
            access,
            writes,
            phase,
            element,
            newest,
            ..
        } => {
            if writes {
                return None;
            }
            match entity_of(access) {
                Some(entity) => match element {
                    Some(element) => Some(Key {
                        phase,
                        entity,
                        element,
                        newest,
                    }),
                    None => None,
                },
                None => None,
            }
        }
        Event::Assigned { .. }
        | Event::ArmBegins
        | Event::ArmEnds
        | Event::Begins
        | Event::Next
        | Event::Ends => None,
    }
}

/// The step that an access is for the sharing of reads.
fn read_step(classes: &mut Classes, key: Option<Key>) -> Result<Step, NoMemory>
    ensures steps { IfOk result (λ s. scanned.TakesOf classes.new 1 key s) }
    ensures extends { IfOk result (λ s. ExtendsKeys classes.old classes.new) }
    ensures few { IfOk result (λ s. length classes.new ≤ length classes.old + 1) }
{
    match key {
        Some(key) => {
            let slot = classes.number(key)?;
            // no key has two numbers, so that one key was added at most
            let _ = classes.len();
            Ok(Step::Access { slot, takes: 1 })
        }
        None => Ok(Step::Other),
    }
}

/// The step that an event is for the sharing of reads.
fn share_step(classes: &mut Classes, event: Event<'_>) -> Result<Step, NoMemory>
    ensures steps { IfOk result (λ s. IsSharing classes.new event.entry s) }
    ensures extends { IfOk result (λ s. ExtendsKeys classes.old classes.new) }
    ensures few { IfOk result (λ s. length classes.new ≤ length classes.old + 1) }
{
    match event {
        Event::ArmBegins => Ok(Step::Begin),
        Event::ArmEnds => Ok(Step::Back),
        Event::Touch { .. } => read_step(classes, read_key(event)),
        Event::Assigned { .. } | Event::Begins | Event::Next | Event::Ends => Ok(Step::Other),
    }
}

/// So many ones.
pub fn ones(alloc: Global, count: usize) -> Result<Vec<usize>, NoMemory>
    ensures { IfOk result (λ ones. ones.items ≡ replicate count 1) }
{
    let mut ones = Vec::with_capacity(alloc, count)?;
    for _ in 0..count {
        ones.push(1)?;
    }
    Ok(ones)
}

/// Whether a step takes where nothing is left.
fn shares(step: Step, left: usize) -> bool
    ensures { result ≡ scanned.shares step left }
{
    match step {
        Step::Access { .. } => left == 0,
        Step::Other | Step::Begin | Step::Next | Step::End | Step::Back => false,
    }
}

/// Whether an event is a read that shares an earlier one. It takes what is left of its class.
fn share_event(
    alloc: Global,
    classes: &mut Classes,
    levels: &mut Levels,
    event: Event<'_>,
) -> Result<bool, NoMemory>
    requires kept { LevelsKept levels.old }
    ensures { IfOk result (λ flag. SharesNext classes.old classes.new levels.old levels.new
        event.entry flag) }
{
    let taken = share_step(classes, event)?;
    let flag = shares(taken, levels.left_at(taken));
    levels.step(alloc, taken)?;
    Ok(flag)
}

/// What is noted of events on the way over them.
#[derive(Drop)]
pub struct Sharing {
    /// The classes of reads.
    pub classes: Classes,
    /// What is left of each class.
    pub levels: Levels,
    /// For each event whether it is a read that shares an earlier one: a read before it with its key took
    /// what was left, and was not in an arm that ended.
    pub flags: Vec<bool>,
}

impl Sharing {
    /// Nothing is noted of so many events.
    pub fn new(alloc: Global, count: usize) -> Result<Sharing, NoMemory>
        ensures { IfOk result (λ sharing. BeginsShared count sharing) }
    {
        // of each class one is left at first; there are no more classes than events
        let ones = ones(alloc, count)?;
        Ok(Sharing {
            classes: Classes::by_phase(alloc),
            levels: Levels::new(alloc, ones),
            flags: Vec::new(alloc),
        })
    }

    /// Notes an event.
    pub fn note(&mut self, alloc: Global, event: Event<'_>) -> Result<(), NoMemory>
        requires kept { LevelsKept self.old.levels }
        ensures { IfOk result (λ _. NotesShare self.old self.new event.entry) }
    {
        let flag = share_event(alloc, &mut self.classes, &mut self.levels, event)?;
        self.flags.push(flag)?;
        Ok(())
    }
}
