//! The walk over events: which reads share, where more ports are taken than are left, and whether each read stands ahead
//! of the writes of its bank. All of it is found on the way, so that no move has to be kept.

ghost use Rattle.std.specs.Prelude.{IfOk};
ghost use Rattle.dh_tree.specs.Memories.{table_of};
ghost use Rattle.dh_tree.specs.Seen.{program_seen};
ghost use Rattle.dh_tree.specs.Shapes.{IsProgramTable};
ghost use Rattle.dh_ports.specs.Layouts.{AllWaysLead, HaveFewCopies, IsLayout};
ghost use Rattle.dh_ports.specs.SharedSoFar.{IsShared};
ghost use Rattle.dh_ports.specs.Walks.{EventsAreWalked};

use crate::banks::bank_ports;
use crate::keeping::KeyTally;
use crate::lasts::{LastWrites, note_runs};
use crate::levels::Levels;
use crate::moves::{ProgramLayout, move_banks};
use crate::sharing::Sharing;
use crate::spending::{Walked, spend_behind};
use dh_base::NoMemory;
use dh_events::Event;
use dh_tree::Typed;
use std::alloc::Global;

/// What events come to. Which of them share and where they write is noted on the way.
pub fn walk(
    alloc: Global,
    typed: &Typed,
    layout: &ProgramLayout,
    sharing: &mut Sharing,
    lasts: &mut LastWrites,
    events: &[Event<'_>],
) -> Result<Walked, NoMemory>
    requires table { IsProgramTable (table_of (program_seen typed.now)) }
    requires layout { IsLayout (program_seen typed.now) layout.now }
    requires leads { AllWaysLead (program_seen typed.now) }
    requires copies { HaveFewCopies layout.now.rounds.items events.now }
    requires begins { IsShared events.now 0 sharing.old }
    ensures { IfOk result (λ walked. EventsAreWalked (program_seen typed.now) layout.now events.now
        sharing.new lasts.new walked) }
{
    let ports = bank_ports(alloc, typed.memories().as_slice())?;
    let mut levels = Levels::new(alloc, ports);
    let mut walked = Walked::Past;
    let mut tally = KeyTally::new(alloc);
    let mut moves = Vec::new(alloc);
    for event in 0..events.len() {
        sharing.note(alloc, events[event])?;
        moves.clear();
        move_banks(
            alloc,
            typed,
            layout,
            &mut tally,
            &mut moves,
            event,
            events[event],
        )?;
        let runs = moves.as_slice();
        note_runs(lasts, events, runs)?;
        let flags = sharing.flags.as_slice();
        walked = spend_behind(alloc, events, flags, &mut levels, walked, runs)?;
    }
    let _ = sharing.classes.len();
    Ok(walked)
}
