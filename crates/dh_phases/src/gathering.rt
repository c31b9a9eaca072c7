//! The phases of a command, as whoever goes along them needs them: with the commands, headers and tests themselves.

ghost use Rattle.std.specs.Prelude.{◌≡◌, ◌∷◌, ◌++◌, [], true, Some, option_map, IfOk, OnOk, map};
ghost use Rattle.dh_tree.specs.Seen.{action_seen, all_parts_seen, maybe_block_seen, term_seen};
ghost use Rattle.dh_meaning.specs.AccessNumbers.{accesses_of, groups_accesses, other_accesses};
ghost use Rattle.dh_phases.specs.Counted.{behind};
ghost use Rattle.dh_phases.specs.GatheredPhases.{loop_phase, all_gathered, as_numbered, numbered_seen, header_seen, phase_seen, phases_seen, phase_list, GathersPhases, GivesPhases, AddsPhases};
ghost use Rattle.dh_phases.specs.Gathering as walk;
ghost use Rattle.dh_phases.specs.Gathering.{phases_in, phases_in_other, phases_in_groups, one_phase, gathered_turn_phases, gathered_choice_phases, command_list, done_behind, open_behind, turn_of, IsPhaseAlone};

use crate::counting::{behind_command, behind_term};
use dh_base::NoMemory;
use dh_meaning::turn_count;
use dh_tree::{Command, CommandForm, Expr, LoopHeader, ViewForm};
use dh_viewing::moves;
use std::alloc::Global;
use std::mem;

/// A command, and the number of its first access.
#[derive(Clone, Copy)]
pub struct NumberedCommand<'a> {
    /// The command.
    pub command: &'a Command,
    /// The number of its first access, in order of evaluation; at most 2^32 - 1.
    pub first: u32,
}

/// A phase of a command: what it does in each of its logical steps.
#[derive(Drop)]
pub enum Phase<'a> {
    /// Straight commands that are done in one logical step.
    Straight {
        /// They, in order.
        commands: Vec<NumberedCommand<'a>>,
    },
    /// A `for`.
    Turns {
        /// It.
        command: NumberedCommand<'a>,
        /// Its header.
        header: &'a LoopHeader,
        /// Its turns, at least one. In each of them all copies of its body are done side by side.
        count: u64,
        /// The phases of a turn, at least one, those of `combine` among them.
        body: Vec<Phase<'a>>,
    },
    /// A `while`: its test takes a logical step before each turn, and one after the last.
    Loop {
        /// It.
        command: NumberedCommand<'a>,
        /// Its test.
        test: &'a Expr,
        /// The phases of a turn.
        body: Vec<Phase<'a>>,
    },
    /// An `if` that is not straight: its test takes a logical step.
    Choice {
        /// It.
        command: NumberedCommand<'a>,
        /// Its test.
        test: &'a Expr,
        /// The phases of the block that runs where the test holds.
        then: Vec<Phase<'a>>,
        /// Those of the block that runs where it does not.
        other: Vec<Phase<'a>>,
    },
}

/// A phase alone.
fn alone<'a>(alloc: Global, phase: Phase<'a>) -> Result<Vec<Phase<'a>>, NoMemory>
    ensures { IfOk result (λ ps. ps.items ≡ phase.entry ∷ []) }
{
    let mut phases = Vec::new(alloc);
    phases.push(phase)?;
    Ok(phases)
}

/// The phase of a straight command alone.
#[tactic(auto, using(crate::proofs::SeenPhases::phases_are))]
fn one_command<'a>(alloc: Global, command: NumberedCommand<'a>) -> Result<Vec<Phase<'a>>, NoMemory>
    ensures { GivesPhases result (walk.lone_phase (numbered_seen command.entry)) }
{
    let mut commands = Vec::new(alloc);
    commands.push(command)?;
    alone(alloc, Phase::Straight { commands })
}

/// The commands of a straight phase.
#[tactic(auto, using(crate::proofs::SeenPhases::phases_are))]
fn straight_commands<'a, 'b>(phase: &'b Phase<'a>) -> Option<&'b [NumberedCommand<'a>]>
    ensures { option_map (λ cs. map numbered_seen cs.now) result
        ≡ walk.straight_commands (phase_seen phase.now) }
{
    match phase {
        Phase::Straight { commands } => Some(commands.as_slice()),
        Phase::Turns { .. } => None,
        Phase::Loop { .. } => None,
        Phase::Choice { .. } => None,
    }
}

/// Whether there is no phase, or one of straight commands alone.
#[tactic(auto, using(crate::proofs::SeenPhases::phases_are))]
fn are_straight(phases: &[Phase<'_>]) -> bool
    ensures { result ≡ walk.gathered_are_straight (phases_seen phases.now) }
{
    match phases {
        [] => true,
        [phase] => straight_commands(phase).is_some(),
        [_, _, ..] => false,
    }
}

/// The phases of a `for`: none where it has no turn, or a turn no phase.
#[tactic(auto, using(crate::proofs::SeenPhases::phases_are))]
fn turns<'a>(
    alloc: Global,
    command: NumberedCommand<'a>,
    header: &'a LoopHeader,
    count: u64,
    turn: Vec<Phase<'a>>,
) -> Result<Vec<Phase<'a>>, NoMemory>
    ensures { GivesPhases result (gathered_turn_phases (numbered_seen command.entry)
        (Some (header_seen header.now)) count (phase_list turn.entry)) }
{
    if turn.is_empty() || count == 0 {
        Ok(Vec::new(alloc))
    } else {
        alone(
            alloc,
            Phase::Turns {
                command,
                header,
                count,
                body: turn,
            },
        )
    }
}

/// The phase of a `while`.
#[tactic(auto, using(crate::proofs::SeenPhases::phases_are))]
fn repeated<'a>(
    alloc: Global,
    command: NumberedCommand<'a>,
    test: &'a Expr,
    body: Vec<Phase<'a>>,
) -> Result<Vec<Phase<'a>>, NoMemory>
    ensures { GivesPhases result (loop_phase (numbered_seen command.entry)
        (Some (term_seen test.now)) (all_gathered (phase_list body.entry)) ∷ []) }
{
    alone(
        alloc,
        Phase::Loop {
            command,
            test,
            body,
        },
    )
}

/// The phase of an `if`: it is straight where its blocks are.
#[tactic(auto, using(crate::proofs::SeenPhases::phases_are))]
fn choice<'a>(
    alloc: Global,
    command: NumberedCommand<'a>,
    test: &'a Expr,
    then: Vec<Phase<'a>>,
    other: Vec<Phase<'a>>,
) -> Result<Vec<Phase<'a>>, NoMemory>
    ensures { GivesPhases result (gathered_choice_phases (numbered_seen command.entry)
        (Some (term_seen test.now)) (phase_list «then».entry) (phase_list other.entry)) }
{
    if are_straight(then.as_slice()) && are_straight(other.as_slice()) {
        one_command(alloc, command)
    } else {
        alone(
            alloc,
            Phase::Choice {
                command,
                test,
                then,
                other,
            },
        )
    }
}

/// Ends the straight commands that stand open, where there is one.
#[tactic(auto, using(crate::proofs::SeenPhases::phases_are))]
fn end_phase<'a>(
    alloc: Global,
    done: &mut Vec<Phase<'a>>,
    current: &mut Vec<NumberedCommand<'a>>,
) -> Result<(), NoMemory>
    ensures done { AddsPhases result done.old done.new (one_phase (command_list current.old)) }
    ensures current { OnOk result (current.new.items ≡ []) }
{
    if !current.is_empty() {
        let commands = mem::replace(current, Vec::new(alloc));
        done.push(Phase::Straight { commands })?;
    }
    Ok(())
}

/// Puts the phases of the next command of a list behind the straight commands that stand open: a phase of
/// straight commands joins them, others end them.
#[tactic(auto, using(crate::proofs::SeenPhases::phases_are))]
fn join<'a>(
    alloc: Global,
    done: &mut Vec<Phase<'a>>,
    current: &mut Vec<NumberedCommand<'a>>,
    mut next: Vec<Phase<'a>>,
) -> Result<(), NoMemory>
    ensures done { AddsPhases result done.old done.new (done_behind current.old next.entry) }
    ensures current { OnOk result (command_list current.new ≡ open_behind current.old next.entry) }
{
    match next.as_slice() {
        [] => return Ok(()),
        [only] => {
            if let Some(commands) = straight_commands(only) {
                current.extend_from_slice(commands)?;
                return Ok(());
            }
        }
        [_, _, ..] => {}
    }
    end_phase(alloc, done, current)?;
    done.append(&mut next)?;
    Ok(())
}

/// Phases, one behind them, and further ones behind that.
fn followed<'a>(
    mut phases: Vec<Phase<'a>>,
    next: Phase<'a>,
    mut further: Vec<Phase<'a>>,
) -> Result<Vec<Phase<'a>>, NoMemory>
    ensures { GivesPhases result (phase_list phases.entry ++ phase_seen next.entry ∷ phase_list
        further.entry) }
{
    phases.push(next)?;
    phases.append(&mut further)?;
    Ok(phases)
}

/// The phases of a turn: the commands of `combine` join the last phase of the body where both are straight; else
/// they are a phase of their own.
fn fold<'a>(
    alloc: Global,
    mut body: Vec<Phase<'a>>,
    fold: Vec<Phase<'a>>,
) -> Result<Vec<Phase<'a>>, NoMemory>
    ensures { GivesPhases result (turn_of body.entry fold.entry) }
{
    match body.pop() {
        None => Ok(fold),
        Some(last) => match straight_commands(&last) {
            Some(commands) => {
                let mut current = Vec::new(alloc);
                current.extend_from_slice(commands)?;
                join(alloc, &mut body, &mut current, fold)?;
                end_phase(alloc, &mut body, &mut current)?;
                Ok(body)
            }
            None => followed(body, last, fold),
        },
    }
}

/// A straight command alone, and the number behind its accesses.
fn straight_alone<'a>(
    alloc: Global,
    first: u32,
    command: &'a Command,
) -> Result<(Vec<Phase<'a>>, u32), NoMemory>
    ensures next { IfOk result (λ g. g.1 ≡ behind first (accesses_of (action_seen command.now))) }
    ensures phases { IfOk result (λ g. phase_list g.0
        ≡ walk.lone_phase (as_numbered (action_seen command.now) first)) }
{
    let phases = one_command(alloc, NumberedCommand { command, first })?;
    Ok((phases, behind_command(first, command)))
}

/// The phase of a view that moves; another has none. And the number behind its accesses.
fn view_phases<'a>(
    alloc: Global,
    first: u32,
    command: &'a Command,
    form: &ViewForm,
) -> Result<(Vec<Phase<'a>>, u32), NoMemory>
    ensures next { IfOk result (λ g. g.1 ≡ behind first (accesses_of (action_seen command.now))) }
    ensures phases { IfOk result (λ g. phase_list g.0 ≡ walk.viewed_phases form.now command.now
        first) }
{
    if moves(form) {
        straight_alone(alloc, first, command)
    } else {
        Ok((Vec::new(alloc), behind_command(first, command)))
    }
}

/// Whether a command is straight by its form alone, so that no list has to be made to join it to those before it.
fn stands_alone(command: &Command) -> bool
    ensures { result ≡ true → IsPhaseAlone command.now }
{
    match &command.form {
        CommandForm::Let { .. } => true,
        CommandForm::Assign { .. } => true,
        CommandForm::Store { .. } => true,
        CommandForm::Reduce { .. } => true,
        CommandForm::If { .. } => false,
        CommandForm::While { .. } => false,
        CommandForm::For { .. } => false,
        CommandForm::Block { .. } => false,
        CommandForm::LetMemory { .. } => false,
        CommandForm::View { .. } => false,
        CommandForm::Call { .. } => false,
    }
}

/// The phases of a command whose accesses are numbered from `first` on, and the number behind these.
#[cycle(gathering)]
#[tactic(auto, using(dh_tree::proofs::SeenActions::actions_are))]
fn phases_of<'a>(
    alloc: Global,
    first: u32,
    command: &'a Command,
) -> Result<(Vec<Phase<'a>>, u32), NoMemory>
    ensures next { IfOk result (λ g. g.1 ≡ behind first (accesses_of (action_seen command.now))) }
    ensures phases { IfOk result (λ g. phase_list g.0 ≡ phases_in first (action_seen
        command.now)) }
{
    match &command.form {
        CommandForm::Let { .. } => straight_alone(alloc, first, command),
        CommandForm::Assign { .. } => straight_alone(alloc, first, command),
        CommandForm::Store { .. } => straight_alone(alloc, first, command),
        CommandForm::Reduce { .. } => straight_alone(alloc, first, command),
        CommandForm::Block { body } => phases_of_parts(alloc, first, body.as_slice()),
        CommandForm::If { test, then, other } => {
            let test = test.as_ref();
            let next = behind_term(first, test);
            let (chosen, next) = phases_of(alloc, next, then)?;
            let (other, next) = phases_of_other(alloc, next, other)?;
            let numbered = NumberedCommand { command, first };
            let phases = choice(alloc, numbered, test, chosen, other)?;
            Ok((phases, next))
        }
        CommandForm::While { test, body } => {
            let test = test.as_ref();
            let next = behind_term(first, test);
            let (body, next) = phases_of(alloc, next, body)?;
            let numbered = NumberedCommand { command, first };
            let phases = repeated(alloc, numbered, test, body)?;
            Ok((phases, next))
        }
        CommandForm::For {
            header,
            body,
            combine,
        } => {
            let header = header.as_ref();
            let count = turn_count(header.low, header.high, header.factor);
            let (body, next) = phases_of(alloc, first, body)?;
            let (folds, next) = phases_of_other(alloc, next, combine)?;
            let turn = fold(alloc, body, folds)?;
            let numbered = NumberedCommand { command, first };
            let phases = turns(alloc, numbered, header, count, turn)?;
            Ok((phases, next))
        }
        CommandForm::LetMemory { .. } => Ok((Vec::new(alloc), first)),
        CommandForm::View { form, .. } => view_phases(alloc, first, command, form),
        CommandForm::Call { .. } => Ok((Vec::new(alloc), first)),
    }
}

/// Those of a block that may lack.
#[cycle(gathering)]
fn phases_of_other<'a>(
    alloc: Global,
    first: u32,
    other: &'a Option<Box<Command>>,
) -> Result<(Vec<Phase<'a>>, u32), NoMemory>
    ensures next { IfOk result (λ g. g.1 ≡ behind first (other_accesses (maybe_block_seen
        other.now))) }
    ensures phases { IfOk result (λ g. phase_list g.0 ≡ phases_in_other first (maybe_block_seen
        other.now)) }
{
    match other {
        Some(block) => phases_of(alloc, first, block),
        None => Ok((Vec::new(alloc), first)),
    }
}

/// Those of the parts between `---`, one part after the other.
#[cycle(gathering)]
fn phases_of_parts<'a>(
    alloc: Global,
    first: u32,
    parts: &'a [Vec<Command>],
) -> Result<(Vec<Phase<'a>>, u32), NoMemory>
    ensures next { IfOk result (λ g. g.1 ≡ behind first (groups_accesses (all_parts_seen
        parts.now))) }
    ensures phases { IfOk result (λ g. phase_list g.0 ≡ phases_in_groups first (all_parts_seen
        parts.now)) }
{
    let mut done = Vec::new(alloc);
    let mut current = Vec::new(alloc);
    let mut next = first;
    for part in parts {
        for command in part {
            if stands_alone(command) {
                current.push(NumberedCommand {
                    command,
                    first: next,
                })?;
                next = behind_command(next, command);
                continue;
            }
            let (phases, behind) = phases_of(alloc, next, command)?;
            next = behind;
            join(alloc, &mut done, &mut current, phases)?;
        }
        end_phase(alloc, &mut done, &mut current)?;
    }
    Ok((done, next))
}

/// The phases of a command, its accesses numbered from 0. Declarations of memories, of views that keep no offset
/// (`shrink`, `split`) and calls have no phase.
///
/// # Errors
///
/// `NoMemory`, the one error; no clause tells when.
pub fn gather(alloc: Global, command: &Command) -> Result<Vec<Phase<'_>>, NoMemory>
    ensures { GathersPhases result (action_seen command.now) }
{
    let (phases, _) = phases_of(alloc, 0, command)?;
    Ok(phases)
}
