//! How many phases the commands of a program have, by their numbers.

ghost use Rattle.std.specs.Prelude.{◌≡◌, if◌then◌else◌, IfOk, OnOk, map};
ghost use Rattle.dh_tree.specs.Seen.{action_form_seen, action_seen, part_seen, view_plan, groups, maybe_block_seen};
ghost use Rattle.dh_tree.specs.ViewOffsets as offsets;
ghost use Rattle.dh_events.specs.Stages.{form_stages, groups_stages, other_stages, stages_in};
ghost use Rattle.dh_tree.specs.PhaseKinds.{phase_kind, form_phase_kind, other_phase_kind, groups_phase_kind};
ghost use Rattle.dh_events.specs.Tables.{ChangesNumbers};

use crate::tables::set_at;
use dh_base::NoMemory;
use dh_meaning::{kind_behind, kind_of_choice, kind_of_turns, turn_count};
use dh_tree::{Command, CommandForm, ViewForm};
use dh_viewing::moves;

/// How many phases a view has: one where it moves.
pub(crate) fn view_stages(form: &ViewForm) -> usize
    ensures { result ≡ (if offsets.moves (view_plan form.now) then 1 else 0) }
{
    if moves(form) { 1 } else { 0 }
}

/// How many phases a command has: none, one Straight phase, or others (2). Notes that of it and of
/// each command inside it.
#[cycle(stages)]
pub fn note_stages(stages: &mut Vec<usize>, command: &Command) -> Result<usize, NoMemory>
    ensures noted { OnOk result (ChangesNumbers stages.old stages.new
        (stages_in (action_seen command.now))) }
    ensures own { IfOk result (λ own. own ≡ phase_kind (action_seen command.now)) }
{
    let own = note_inside(stages, &command.form)?;
    set_at(stages, command.id, own)?;
    Ok(own)
}

/// How many a command of a form has. Notes those of the commands inside it.
#[cycle(stages)]
#[tactic(auto, using(dh_tree::proofs::SeenActions::actions_are))]
fn note_inside(stages: &mut Vec<usize>, form: &CommandForm) -> Result<usize, NoMemory>
    ensures noted { OnOk result (ChangesNumbers stages.old stages.new
        (form_stages (action_form_seen form.now))) }
    ensures own { IfOk result (λ own. own ≡ form_phase_kind (action_form_seen form.now)) }
{
    match form {
        CommandForm::Let { .. }
        | CommandForm::Assign { .. }
        | CommandForm::Store { .. }
        | CommandForm::Reduce { .. } => Ok(1),
        CommandForm::Block { body } => note_block(stages, body.as_slice()),
        CommandForm::If { then, other, .. } => {
            let chosen = note_stages(stages, then)?;
            let others = note_other(stages, other)?;
            Ok(kind_of_choice(chosen, others))
        }
        CommandForm::While { body, .. } => {
            note_stages(stages, body)?;
            Ok(2)
        }
        CommandForm::For {
            header,
            body,
            combine,
        } => {
            let header = header.as_ref();
            let inner = note_stages(stages, body)?;
            let joins = note_other(stages, combine)?;
            let turns = turn_count(header.low, header.high, header.factor);
            Ok(kind_of_turns(turns, inner, joins))
        }
        CommandForm::View { form, .. } => Ok(view_stages(form)),
        CommandForm::LetMemory { .. } | CommandForm::Call { .. } => Ok(0),
    }
}

/// Those of a block that may lack.
#[cycle(stages)]
fn note_other(stages: &mut Vec<usize>, other: &Option<Box<Command>>) -> Result<usize, NoMemory>
    ensures noted { OnOk result (ChangesNumbers stages.old stages.new
        (other_stages (maybe_block_seen other.now))) }
    ensures own { IfOk result (λ own. own ≡ other_phase_kind (maybe_block_seen other.now)) }
{
    match other {
        Some(block) => note_stages(stages, block),
        None => Ok(0),
    }
}

/// Those of a block.
#[cycle(stages)]
fn note_block(stages: &mut Vec<usize>, body: &[Vec<Command>]) -> Result<usize, NoMemory>
    ensures noted { OnOk result (ChangesNumbers stages.old stages.new
        (groups_stages (groups (map part_seen body.now)))) }
    ensures own { IfOk result (λ own. own ≡ groups_phase_kind (groups (map part_seen body.now))) }
{
    let mut all: usize = 0;
    for part in body {
        let mut most: usize = 0;
        for command in part.as_slice() {
            most = note_stages(stages, command)?.max(most);
        }
        all = kind_behind(all, most);
    }
    Ok(all)
}
