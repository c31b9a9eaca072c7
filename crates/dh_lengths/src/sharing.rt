//! Which earlier read each read shares, from the events of a body.

ghost use Rattle.std.specs.Prelude.{◌≡◌, IfOk, OnOk};
ghost use Rattle.dh_tree.specs.Seen.{action_seen};
ghost use Rattle.dh_events.specs.Classes.{ExtendsKeys};
ghost use Rattle.dh_ports.specs.Scanned as scanned;
ghost use Rattle.dh_lengths.specs.LiveFirsts.{none_read, shares_of};
ghost use Rattle.dh_lengths.specs.SharedReads.{AreMet, AreWithinClasses, FindsShares, IsMet, IsKeyMet, TellsSharesIn};

use crate::live::Live;
use dh_base::NoMemory;
use dh_events::{Classes, Event, Key, Notes, note_body, note_stages};
use dh_ports::read_key;
use dh_tree::Command;
use std::alloc::Global;

/// What an event is for the sharing of reads.
#[derive(Clone, Copy)]
pub enum Met {
    /// A read of a class.
    Read {
        /// The number of the class.
        class: usize,
    },
    /// An access that shares nothing and is not shared.
    Alone,
    /// An arm of an `if` begins.
    Begins,
    /// An arm ends.
    Ends,
    /// Nothing.
    Other,
}

/// What an access with a key is for the sharing of reads.
fn met_key(classes: &mut Classes, key: Option<Key>) -> Result<Met, NoMemory>
    ensures met { IfOk result (λ m. IsKeyMet classes.new key m) }
    ensures extends { OnOk result (ExtendsKeys classes.old classes.new) }
{
    match key {
        Some(key) => {
            let class = classes.number(key)?;
            Ok(Met::Read { class })
        }
        None => Ok(Met::Alone),
    }
}

/// What an event is for the sharing of reads.
fn met_at(classes: &mut Classes, event: Event<'_>) -> Result<Met, NoMemory>
    ensures met { IfOk result (λ m. IsMet classes.new event.entry m) }
    ensures extends { OnOk result (ExtendsKeys classes.old classes.new) }
{
    match event {
        Event::ArmBegins => Ok(Met::Begins),
        Event::ArmEnds => Ok(Met::Ends),
        Event::Touch { .. } => met_key(classes, read_key(event)),
        Event::Assigned { .. } | Event::Begins | Event::Next | Event::Ends => Ok(Met::Other),
    }
}

/// What events are for the sharing of reads.
fn all_met(alloc: Global, classes: &mut Classes, events: &[Event<'_>]) -> Result<Vec<Met>, NoMemory>
    ensures { IfOk result (λ met. AreMet classes.new events.now met.items) }
{
    let mut met = Vec::new(alloc);
    for event in events {
        met.push(met_at(classes, *event)?)?;
    }
    Ok(met)
}

/// Of each access among what is met, in order, the earlier read that it shares, if it shares one.
fn shares_met(alloc: Global, classes: usize, met: &[Met]) -> Result<Vec<Option<usize>>, NoMemory>
    requires within { AreWithinClasses classes met.now }
    ensures { IfOk result (λ shares. shares.items ≡ shares_of none_read 0 met.now) }
{
    let mut live = Live::new(alloc, classes)?;
    let mut shares = Vec::new(alloc);
    for m in met {
        match *m {
            Met::Read { class } => {
                let shared = live.read(class, shares.len())?;
                shares.push(shared)?;
            }
            Met::Alone => shares.push(None)?,
            Met::Begins => live.begin(alloc)?,
            Met::Ends => live.end(),
            Met::Other => {}
        }
    }
    Ok(shares)
}

/// Of each access among the events of a program's body, in order, the earlier read that it shares, if it shares one: what
/// `shared_reads` answers, where the events are noted already.
///
/// # Errors
///
/// `NoMemory` where an allocation was refused.
pub fn find_shares(alloc: Global, events: &[Event<'_>]) -> Result<Vec<Option<usize>>, NoMemory>
    ensures { IfOk result (λ shares. FindsShares events.now shares.items) }
{
    let mut classes = Classes::by_phase(alloc);
    let met = all_met(alloc, &mut classes, events)?;
    shares_met(alloc, classes.len(), met.as_slice())
}

/// Of each access of a program's body, by its number in order of evaluation, the number of the earlier read
/// that it shares; None of a write, and of a read that shares none.
///
/// A read shares the first read before it of the same element of its memory in its Straight phase, of which
/// all arms are open, where no variable of the indices was assigned to in between.
///
/// # Errors
///
/// `NoMemory` where an allocation was refused.
pub fn shared_reads(alloc: Global, body: &Command) -> Result<Vec<Option<usize>>, NoMemory>
    ensures { IfOk result (λ shares. TellsSharesIn (action_seen body.now) shares.items) }
{
    let mut stages = Vec::new(alloc);
    note_stages(&mut stages, body)?;
    let mut notes = Notes::for_commands(alloc, stages.len())?;
    note_body(&mut notes, stages.as_slice(), body)?;
    find_shares(alloc, notes.events.as_slice())
}
