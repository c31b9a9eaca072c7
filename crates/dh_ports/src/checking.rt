//! The check of the rules on ports.

ghost use Rattle.std.specs.Prelude.{◌≡◌, IfOk, OnOk};
ghost use Rattle.dh_tree.specs.Memories.{table_of};
ghost use Rattle.dh_tree.specs.Seen.{program_seen};
ghost use Rattle.dh_tree.specs.Shapes.{IsProgramTable};
ghost use Rattle.dh_events.specs.Noted.{all_seen};
ghost use Rattle.dh_events.specs.Stages.{AreStagesOf};
ghost use Rattle.dh_ports.specs.Ahead.{IsAhead};
ghost use Rattle.dh_ports.specs.EventMoves.{moves_by};
ghost use Rattle.dh_ports.specs.Layouts.{AllWaysLead, AreRoundsOf, AreScopesNoted, HaveFewCopies, IsLayout};
ghost use Rattle.dh_ports.specs.Scanned as scanned;
ghost use Rattle.dh_ports.specs.Scanned.{AreMovesOf, KeepsLate};
ghost use Rattle.dh_ports.specs.Told.{IsToldBefore, JudgesPorts, TellsFirst, TellsFirstAmong, TellsPorts};
ghost use Rattle.dh_ports.specs.Wholes.{happenings_of};

use crate::accepted::Accepted;
use crate::lasts::LastWrites;
use crate::laws::{
    incidents_tell_sites, late_reads_are_told, shared_reads_are_found, spent_ports_are_told,
};
use crate::moves::{ProgramLayout, all_moves, layout_of};
use crate::nesting::{nests_of, nests_with};
use crate::ordering::keep_late;
use crate::sharing::Sharing;
use crate::spending::place_walked;
use crate::walking::walk;
use dh_base::{NoMemory, PassFault, Place, Rule};
use dh_events::{Event, Nests, Notes, note_body};
use dh_tree::{Breach, Typed};
use std::alloc::Global;

/// The breach of ports that are spent at a place.
fn spent_at(place: Option<Place>) -> Option<Breach>
    ensures { result ≡ scanned.ports_spent_breach place }
{
    match place {
        Some(place) => Some(Breach {
            rule: Rule::PortsSpent,
            place,
        }),
        None => None,
    }
}

/// Keeps the least of the breaches of reads that come behind a write of their bank in their phase.
fn keep_behind(
    alloc: Global,
    typed: &Typed,
    layout: &ProgramLayout,
    kept: &mut Option<Breach>,
    events: &[Event<'_>],
    lasts: &LastWrites,
) -> Result<(), NoMemory>
    requires table { IsProgramTable (table_of (program_seen typed.now)) }
    requires layout { IsLayout (program_seen typed.now) layout.now }
    requires leads { AllWaysLead (program_seen typed.now) }
    requires copies { HaveFewCopies layout.now.rounds.items events.now }
    requires within { AreMovesOf events.now (moves_by typed.now layout.now events.now) }
    requires ahead { IsAhead events.now (moves_by typed.now layout.now events.now) lasts.now }
    ensures { OnOk result (KeepsLate events.now (moves_by typed.now layout.now events.now)
        kept.old kept.new) }
{
    // in most programs each read stands ahead of the writes of its bank in its phase
    let ahead = lasts.ahead;
    if ahead {
        return Ok(());
    }
    let moves = all_moves(alloc, typed, layout, events)?;
    keep_late(alloc, kept, events, moves.as_slice())
}

/// The first breach of the rules on ports, if there is one, by what is noted of a program's commands and by what
/// happens in them.
fn first_among(
    alloc: Global,
    typed: &Typed,
    nests: Nests,
    events: &[Event<'_>],
) -> Result<Option<Breach>, NoMemory>
    requires told { IsToldBefore (program_seen typed.now) }
    requires rounds { AreRoundsOf (program_seen typed.now) nests.rounds.items }
    requires scopes { AreScopesNoted (program_seen typed.now) nests.rounds.items
        nests.scopes.items }
    requires seen { all_seen events.now ≡ happenings_of (program_seen typed.now) }
    ensures { IfOk result (λ first. TellsFirstAmong (program_seen typed.now) events.now first) }
{
    incidents_tell_sites();
    shared_reads_are_found();
    spent_ports_are_told();
    late_reads_are_told();
    let mut sharing = Sharing::new(alloc, events.len())?;
    let mut lasts = LastWrites::new(alloc);
    let layout = layout_of(alloc, typed, nests)?;
    let walked = walk(alloc, typed, &layout, &mut sharing, &mut lasts, events)?;
    let mut kept = spent_at(place_walked(walked));
    keep_behind(alloc, typed, &layout, &mut kept, events, &lasts)?;
    Ok(kept)
}

/// The first breach of the rules on ports in a program's body, if there is one, by what is noted of its commands.
fn first_breach(alloc: Global, typed: &Typed, nests: Nests) -> Result<Option<Breach>, NoMemory>
    requires told { IsToldBefore (program_seen typed.now) }
    requires stages { AreStagesOf (program_seen typed.now) nests.stages.items }
    requires rounds { AreRoundsOf (program_seen typed.now) nests.rounds.items }
    requires scopes { AreScopesNoted (program_seen typed.now) nests.rounds.items
        nests.scopes.items }
    ensures { IfOk result (λ first. TellsFirst (program_seen typed.now) first) }
{
    let body = &typed.tree().body;
    let mut notes = Notes::for_commands(alloc, nests.stages.len())?;
    note_body(&mut notes, nests.stages.as_slice(), body)?;
    // the notes are dropped at one place: what comes of them is found in a function of its own
    first_among(alloc, typed, nests, notes.events.as_slice())
}

/// The same of a program of which nothing is noted yet.
fn first_of(alloc: Global, typed: &Typed) -> Result<Option<Breach>, NoMemory>
    requires told { IsToldBefore (program_seen typed.now) }
    ensures { IfOk result (λ first. TellsFirst (program_seen typed.now) first) }
{
    let nests = nests_of(alloc, typed)?;
    first_breach(alloc, typed, nests)
}

/// The same of a program whose phases are counted already.
fn first_with(alloc: Global, typed: &Typed, stages: Vec<usize>) -> Result<Option<Breach>, NoMemory>
    requires told { IsToldBefore (program_seen typed.now) }
    requires counted { AreStagesOf (program_seen typed.now) stages.items }
    ensures { IfOk result (λ first. TellsFirst (program_seen typed.now) first) }
{
    let nests = nests_with(alloc, typed, stages)?;
    first_breach(alloc, typed, nests)
}

/// The answer for a program, by the first breach of the rules on ports, if there is one.
fn judged(typed: Typed, first: Result<Option<Breach>, NoMemory>) -> Result<Accepted, PassFault>
    requires told { IsToldBefore (program_seen typed) }
    requires first { IfOk first (λ first. TellsFirst (program_seen typed) first) }
    ensures { JudgesPorts (program_seen typed) first result }
{
    // one fault for all, so that the program is dropped at one place
    let fault = match first {
        Ok(None) => return Ok(Accepted::of(typed)),
        Ok(Some(breach)) => PassFault::Refused {
            rule: breach.rule,
            place: breach.place,
        },
        Err(NoMemory) => PassFault::NoMemory,
    };
    Err(fault)
}

/// Tells whether a program keeps the rules on ports, of which the passes before told that it breaks no other rule.
///
/// In no logical step do accesses that may meet take more ports of a bank than it has, where copies of a read
/// with one key are one, and a read that shares an earlier one takes none; and no read comes behind a write of
/// its bank in its phase.
///
/// Its time is in proportion to the text, but for two things: an access in unrolled loops counts once for each
/// of its copies, and what the parts beside others claim of banks is handed on at the end of these parts.
///
/// # Errors
///
/// `Refused` with the breach of `PortsSpent` or `ReadAfterWrite` that stands first. `NoMemory` where an
/// allocation was refused.
pub fn check_ports(alloc: Global, typed: Typed) -> Result<Accepted, PassFault>
    requires told { IsToldBefore (program_seen typed) }
    ensures { TellsPorts (program_seen typed) result }
{
    let first = first_of(alloc, &typed);
    judged(typed, first)
}

/// As `check_ports`, where it is known how many phases the commands have: by the number of each none, one straight
/// phase, or others (2).
///
/// # Errors
///
/// Those of `check_ports`.
pub fn check_counted(alloc: Global, typed: Typed, stages: Vec<usize>) -> Result<Accepted, PassFault>
    requires told { IsToldBefore (program_seen typed) }
    requires counted { AreStagesOf (program_seen typed) stages.items }
    ensures { TellsPorts (program_seen typed) result }
{
    let first = first_with(alloc, &typed, stages);
    judged(typed, first)
}
