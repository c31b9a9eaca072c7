//! The phases of the command that has a number.

ghost use Rattle.std.specs.Prelude.{◌≡◌, ℕ, [], option_map};
ghost use Rattle.dh_tree.specs.Seen.{action_seen, all_parts_seen, maybe_block_seen, program_seen};
ghost use Rattle.dh_tree.specs.Numbers.{IsNumbered};
ghost use Rattle.dh_phases.specs.FoundCommands.{GivesPhasesOf, HasCommand, found_seen, first_in_command, first_in_other, first_in_groups};

use crate::gathering::{Phase, gather};
use dh_base::NoMemory;
use dh_tree::{Command, CommandForm, Typed};
use std::alloc::Global;

/// Finds the first command of a number: this one, or one inside it.
#[cycle(seeking)]
#[tactic(auto, using(dh_tree::proofs::SeenActions::actions_are))]
fn find(command: &Command, number: u32) -> Option<&Command>
    ensures { found_seen result ≡ first_in_command number (action_seen command.now) }
{
    if command.id == number {
        return Some(command);
    }
    match &command.form {
        CommandForm::Block { body } => find_in_parts(body.as_slice(), number),
        CommandForm::If { then, other, .. } => match find(then, number) {
            Some(found) => Some(found),
            None => find_in_other(other, number),
        },
        CommandForm::While { body, .. } => find(body, number),
        CommandForm::For { body, combine, .. } => match find(body, number) {
            Some(found) => Some(found),
            None => find_in_other(combine, number),
        },
        CommandForm::Let { .. } => None,
        CommandForm::LetMemory { .. } => None,
        CommandForm::View { .. } => None,
        CommandForm::Assign { .. } => None,
        CommandForm::Store { .. } => None,
        CommandForm::Reduce { .. } => None,
        CommandForm::Call { .. } => None,
    }
}

/// Finds it in a block that may lack.
#[cycle(seeking)]
fn find_in_other(other: &Option<Box<Command>>, number: u32) -> Option<&Command>
    ensures { found_seen result ≡ first_in_other number (maybe_block_seen other.now) }
{
    match other {
        Some(block) => find(block, number),
        None => None,
    }
}

/// Finds it in parts.
#[cycle(seeking)]
fn find_in_parts(parts: &[Vec<Command>], number: u32) -> Option<&Command>
    ensures { found_seen result ≡ first_in_groups number (all_parts_seen parts.now) }
{
    for part in parts {
        for command in part {
            if let Some(found) = find(command, number) {
                return Some(found);
            }
        }
    }
    None
}

/// The phases of the command of a number, its accesses numbered from 0. Declarations of memories, of views that keep no
/// offset (`shrink`, `split`) and calls have no phase. The commands of `combine` are done at the end of the last phase of
/// a turn where both are straight. `_memories` is for the body of a function: the memories that its parameters stand for,
/// in order; functions are not built, so there are none.
///
/// # Errors
///
/// `NoMemory`, the one error; no clause tells when.
pub fn phases<'a>(
    alloc: Global,
    typed: &'a Typed,
    command: u32,
    _memories: &[u32],
) -> Result<Vec<Phase<'a>>, NoMemory>
    requires there { HasCommand (program_seen typed.now).body command }
    requires numbered { (first : ℕ) × IsNumbered first (program_seen typed.now).body }
    requires none { _memories.now ≡ [] }
    ensures { GivesPhasesOf result (program_seen typed.now).body command }
{
    match find(&typed.tree().body, command) {
        Some(found) => gather(alloc, found),
        None => unreachable!(),
    }
}
