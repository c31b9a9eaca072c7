//! The size of a whole program's plan.

ghost use Rattle.std.specs.Prelude.{◌≡◌, IfOk};
ghost use Rattle.std.specs.Option.{is_some};
ghost use Rattle.dh_tree.specs.Memories.{table_of};
ghost use Rattle.dh_tree.specs.Ready.{IsReady};
ghost use Rattle.dh_tree.specs.Seen.{program_seen};
ghost use Rattle.dh_tree.specs.Shapes.{IsProgramTable};
ghost use Rattle.dh_events.specs.Accesses.{loops_listed};
ghost use Rattle.dh_events.specs.Noted.{all_seen};
ghost use Rattle.dh_lengths.specs.SharedReads.{told, TellsShares};
ghost use Rattle.dh_plan.specs.PlanSizes.{size_reported};
ghost use Rattle.dh_size.specs.Led.{AreProgramViews};
ghost use Rattle.dh_size.specs.Sizes.{event_sizes, EventsHaveFewCopies};
ghost use Rattle.dh_size.specs.Summed.{capped_sum};

use crate::banks::access_size;
use crate::commands::with_command;
use crate::through::Views;
use dh_base::NoMemory;
use dh_events::{Event, Notes, loops_round, note_body};
use dh_lengths::find_shares;
use dh_ports::{carriers_of, nests_of};
use dh_sound::ready_accesses_are_told;
use dh_tree::{Counter, Typed, kept_programs_have_tables};
use dh_ways::ways_in;
use std::alloc::Global;

/// What is reported of a size stops here.
const GREATEST_SIZE: u64 = 1_000_000_000;

/// Whether the access of a number shares an earlier read.
fn does_share(shares: &[Option<usize>], number: usize) -> bool
    ensures { result ≡ is_some (told shares.now number) }
{
    if number < shares.len() {
        shares[number].is_some()
    } else {
        false
    }
}

/// The sizes of all accesses among events.
fn access_sizes(
    alloc: Global,
    typed: &Typed,
    views: Views<'_>,
    rounds: &[Vec<Counter>],
    shares: &[Option<usize>],
    events: &[Event<'_>],
) -> Result<u64, NoMemory>
    requires table { IsProgramTable (table_of (program_seen typed.now)) }
    requires views { AreProgramViews (program_seen typed.now) views }
    requires few { EventsHaveFewCopies (loops_listed rounds.now) (all_seen events.now) }
    ensures { IfOk result (λ size. size ≡ capped_sum 0 (event_sizes typed.now rounds.now shares.now
        events.now)) }
{
    let mut sum: u64 = 0;
    let mut number: usize = 0;
    for event in events {
        match *event {
            Event::Touch { access, round, .. } => {
                let loops = loops_round(rounds, round);
                let shared = does_share(shares, number);
                let size = access_size(alloc, typed, views, loops, access, shared)?;
                sum = sum.saturating_add(size);
                number = number + 1;
            }
            Event::Assigned { .. } => {}
            Event::ArmBegins => {}
            Event::ArmEnds => {}
            Event::Begins => {}
            Event::Next => {}
            Event::Ends => {}
        }
    }
    Ok(sum)
}

/// The size of a program's plan, and what was found of its accesses on the way.
#[derive(Drop)]
pub struct PlanSize {
    /// The size, at most 1,000,000,000.
    pub size: u64,
    /// Of each access, by its number in order of evaluation, the number of the earlier read that it shares, if it shares
    /// one: the answer of `shared_reads`, for who makes the plan.
    pub shares: Vec<Option<usize>>,
}

/// The size of the plan of a program that is ready; 1,000,000,000 where it is greater. A program is compiled where its
/// size is at most 200,000.
///
/// # Errors
///
/// `NoMemory` where an allocation was refused.
pub fn plan_size(alloc: Global, program: &Typed) -> Result<PlanSize, NoMemory>
    requires ready { IsReady (program_seen program.now) }
    ensures size { IfOk result (λ counted. counted.size ≡ size_reported (program_seen
        program.now)) }
    ensures shares { IfOk result (λ counted. TellsShares (program_seen program.now)
        counted.shares.items) }
{
    ready_accesses_are_told();
    kept_programs_have_tables();
    let body = &program.tree().body;
    let ways = ways_in(alloc, program)?;
    let carriers = carriers_of(alloc, &ways)?;
    let each = carriers.as_slice();
    let views = Views {
        ways: &ways,
        carriers: each,
    };
    let nests = nests_of(alloc, program)?;
    let mut notes = Notes::for_commands(alloc, nests.stages.len())?;
    note_body(&mut notes, nests.stages.as_slice(), body)?;
    let events = notes.events.as_slice();
    let shares = find_shares(alloc, events)?;
    let accesses = access_sizes(
        alloc,
        program,
        views,
        nests.rounds.as_slice(),
        shares.as_slice(),
        events,
    )?;
    let size = with_command(accesses, body).min(GREATEST_SIZE);
    Ok(PlanSize { size, shares })
}
