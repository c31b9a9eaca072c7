//! The length of each phase, in one walk along the phases.
//!
//! A straight phase stays open while commands may join it: it is told its length when the next one begins, since
//! the block that joins a loop's copies goes on with the last phase of a turn.

ghost use Rattle.std.specs.Prelude.{◌≡◌, ℕ, IfOk, OnOk};
ghost use Rattle.dh_tree.specs.Numbers.{IsNumbered};
ghost use Rattle.dh_tree.specs.Seen.{program_seen};
ghost use Rattle.dh_ways.specs.CutStands.{HasFewWays};
ghost use Rattle.dh_lengths.specs.PhaseBlocks.{lengths_of};
ghost use Rattle.dh_lengths.specs.PhaseWalks.{Closes, OpensBy, TellsPhaseLength, WalksCommand, WalksOther, WalksStraight, WalksTest};

use crate::commands::level_command;
use crate::held::PhaseLevels;
use crate::leads::Leads;
use crate::sharing::shared_reads;
use crate::skipping::skip_command;
use crate::terms::level_term;
use dh_base::NoMemory;
use dh_events::{get_at, note_stages};
use dh_tree::{Command, CommandForm, Expr, Typed};
use dh_ways::ways_in;
use std::alloc::Global;

/// Where a walk along phases stands.
#[derive(Drop)]
pub struct PhaseWalk<'a> {
    /// The levels of the open phase.
    pub held: PhaseLevels<'a>,
    /// Whether a straight phase is open, which was not told its length yet.
    pub pending: bool,
    /// Whether the next straight command joins it.
    pub going: bool,
    /// The lengths of the phases before it, in clocks.
    pub lengths: Vec<u64>,
}

/// Tells the length of the phase whose levels are held, and ends it.
fn tell(walk: &mut PhaseWalk<'_>) -> Result<(), NoMemory>
    ensures { OnOk result (TellsPhaseLength walk.old walk.new) }
{
    let most = walk.held.most.min(walk.held.reads.len());
    walk.lengths.push(most as u64 + 1)?;
    walk.held.end_phase()
}

/// Ends the open phase, if there is one.
fn close(walk: &mut PhaseWalk<'_>) -> Result<(), NoMemory>
    ensures { OnOk result (Closes walk.old walk.new) }
{
    if walk.pending {
        tell(walk)?;
        walk.pending = false;
    }
    walk.going = false;
    Ok(())
}

/// Ends the open phase, where the next straight command does not join it.
fn open_phase(walk: &mut PhaseWalk<'_>) -> Result<(), NoMemory>
    ensures { OnOk result (OpensBy walk.old.going walk.old walk.new) }
{
    if walk.going { Ok(()) } else { close(walk) }
}

/// A test, which is a phase of its own.
fn walk_test(walk: &mut PhaseWalk<'_>, ways: &Leads<'_>, test: &Expr) -> Result<(), NoMemory>
    ensures { OnOk result (WalksTest ways.now walk.old walk.new test.now) }
{
    close(walk)?;
    level_term(&mut walk.held, ways, 0, test)?;
    tell(walk)
}

/// A straight command.
fn walk_straight(
    alloc: Global,
    walk: &mut PhaseWalk<'_>,
    ways: &Leads<'_>,
    command: &Command,
) -> Result<(), NoMemory>
    ensures { OnOk result (WalksStraight ways.now walk.old walk.new command.now) }
{
    open_phase(walk)?;
    level_command(alloc, &mut walk.held, ways, 0, command)?;
    walk.pending = true;
    walk.going = true;
    Ok(())
}

/// The phases of a command, of which each command's number of phases is known.
#[cycle(walking)]
fn walk_command(
    alloc: Global,
    walk: &mut PhaseWalk<'_>,
    ways: &Leads<'_>,
    stages: &[usize],
    command: &Command,
) -> Result<(), NoMemory>
    ensures { OnOk result (WalksCommand ways.now stages.now walk.old walk.new command.now) }
{
    let stage = get_at(stages, command.id);
    if stage == 0 {
        return skip_command(&mut walk.held.reads, command);
    }
    if stage == 1 {
        return walk_straight(alloc, walk, ways, command);
    }
    match &command.form {
        CommandForm::Block { body } => {
            for part in body.as_slice() {
                walk.going = false;
                for command in part.as_slice() {
                    walk_command(alloc, walk, ways, stages, command)?;
                }
            }
            walk.going = false;
            Ok(())
        }
        CommandForm::If { test, then, other } => {
            walk_test(walk, ways, test)?;
            walk_command(alloc, walk, ways, stages, then)?;
            close(walk)?;
            walk_other(alloc, walk, ways, stages, other)?;
            close(walk)
        }
        CommandForm::While { test, body } => {
            walk_test(walk, ways, test)?;
            walk_command(alloc, walk, ways, stages, body)?;
            close(walk)
        }
        CommandForm::For { body, combine, .. } => {
            close(walk)?;
            walk_command(alloc, walk, ways, stages, body)?;
            walk.going = true;
            walk_other(alloc, walk, ways, stages, combine)?;
            close(walk)
        }
        CommandForm::Let { .. } => Ok(()),
        CommandForm::Assign { .. } => Ok(()),
        CommandForm::Store { .. } => Ok(()),
        CommandForm::Reduce { .. } => Ok(()),
        CommandForm::LetMemory { .. } => Ok(()),
        CommandForm::View { .. } => Ok(()),
        CommandForm::Call { .. } => Ok(()),
    }
}

/// Those of a block that may lack.
#[cycle(walking)]
fn walk_other(
    alloc: Global,
    walk: &mut PhaseWalk<'_>,
    ways: &Leads<'_>,
    stages: &[usize],
    other: &Option<Box<Command>>,
) -> Result<(), NoMemory>
    ensures { OnOk result (WalksOther ways.now stages.now walk.old walk.new other.now) }
{
    match other {
        Some(block) => walk_command(alloc, walk, ways, stages, block),
        None => Ok(()),
    }
}

/// The length of each phase of a program in clocks, in text order: of its straight phases and of the tests that
/// are phases of their own.
///
/// # Errors
///
/// `NoMemory` where an allocation was refused.
pub fn phase_lengths(alloc: Global, program: &Typed) -> Result<Vec<u64>, NoMemory>
    requires numbered { (first : ℕ) × IsNumbered first (program_seen program.now).body }
    requires few { HasFewWays (program_seen program.now) }
    ensures { IfOk result (λ lengths. lengths.items ≡ lengths_of (program_seen program.now)) }
{
    let body = &program.tree().body;
    let table = ways_in(alloc, program)?;
    let ways = Leads {
        program,
        ways: &table,
    };
    let shares = shared_reads(alloc, body)?;
    let mut stages = Vec::new(alloc);
    note_stages(&mut stages, body)?;
    let mut walk = PhaseWalk {
        held: PhaseLevels {
            shares: shares.as_slice(),
            reads: Vec::new(alloc),
            first: 0,
            most: 0,
            variables: Vec::new(alloc),
            log: Vec::new(alloc),
        },
        pending: false,
        going: false,
        lengths: Vec::new(alloc),
    };
    walk_command(alloc, &mut walk, &ways, stages.as_slice(), body)?;
    close(&mut walk)?;
    Ok(walk.lengths)
}
