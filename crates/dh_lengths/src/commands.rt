//! The levels of the commands of a straight phase.

ghost use Rattle.std.specs.Prelude.{OnOk};
ghost use Rattle.dh_lengths.specs.LeveledCommands.{LevelsCommand, LevelsOther, LevelsReduce};

use crate::held::PhaseLevels;
use crate::leads::Leads;
use crate::skipping::skip_command;
use crate::terms::{level_maybe, level_store, level_term};
use crate::undoing::{join, marks_of, redo, since, undo};
use crate::views::level_view;
use dh_base::NoMemory;
use dh_tree::{Command, CommandForm, Expr, Ref};
use std::alloc::Global;

/// A reducer: what the variable holds and a value are put together.
fn level_reduce(
    held: &mut PhaseLevels<'_>,
    ways: &Leads<'_>,
    outer: usize,
    target: &Ref,
    value: &Expr,
) -> Result<(), NoMemory>
    ensures { OnOk result (LevelsReduce ways.now held.old held.new outer target.now value.now) }
{
    let now = held.level_of(target.entity);
    let level = level_term(held, ways, outer, value)?;
    held.assign(target.entity, now.max(level))
}

/// Notes the levels that a straight command makes, inside tests of a level.
#[cycle(level_command)]
pub fn level_command(
    alloc: Global,
    held: &mut PhaseLevels<'_>,
    ways: &Leads<'_>,
    outer: usize,
    command: &Command,
) -> Result<(), NoMemory>
    ensures { OnOk result (LevelsCommand ways.now held.old held.new outer command.now) }
{
    match &command.form {
        CommandForm::Let { name, value, .. } => {
            let level = level_maybe(held, ways, outer, value)?;
            held.assign(name.entity, level)
        }
        CommandForm::Assign { target, value } => {
            let level = level_term(held, ways, outer, value)?;
            held.assign(target.entity, level)
        }
        CommandForm::Store { sides } => {
            let sides = sides.as_ref();
            level_store(held, ways, outer, &sides.target, &sides.value)
        }
        CommandForm::Reduce { target, value, .. } => level_reduce(held, ways, outer, target, value),
        CommandForm::If { test, then, other } => {
            let level = level_term(held, ways, outer, test)?;
            let inside = level.max(outer);
            let begin = held.log.len();
            level_command(alloc, held, ways, inside, then)?;
            let arm = since(held.log.as_slice(), begin);
            let chosen = marks_of(alloc, held.variables.as_slice(), arm)?;
            undo(&mut held.variables, arm)?;
            let middle = held.log.len();
            level_other(alloc, held, ways, inside, other)?;
            let both = since(held.log.as_slice(), begin);
            let others = marks_of(alloc, held.variables.as_slice(), both)?;
            undo(&mut held.variables, since(held.log.as_slice(), middle))?;
            redo(&mut held.variables, chosen.as_slice())?;
            join(&mut held.variables, others.as_slice(), level)
        }
        CommandForm::Block { body } => {
            for part in body.as_slice() {
                for command in part.as_slice() {
                    level_command(alloc, held, ways, outer, command)?;
                }
            }
            Ok(())
        }
        CommandForm::LetMemory { .. } => Ok(()),
        CommandForm::Call { .. } => Ok(()),
        CommandForm::While { .. } => skip_command(&mut held.reads, command),
        CommandForm::For { .. } => skip_command(&mut held.reads, command),
        CommandForm::View { name, form, .. } => level_view(alloc, held, ways, outer, name, form),
    }
}

/// Those of an arm that may lack.
#[cycle(level_command)]
fn level_other(
    alloc: Global,
    held: &mut PhaseLevels<'_>,
    ways: &Leads<'_>,
    outer: usize,
    other: &Option<Box<Command>>,
) -> Result<(), NoMemory>
    ensures { OnOk result (LevelsOther ways.now held.old held.new outer other.now) }
{
    match other {
        Some(block) => level_command(alloc, held, ways, outer, block),
        None => Ok(()),
    }
}
