//! Whether a program declares a view: what is told of views takes memory, so that it is asked for only where
//! there is one.

ghost use Rattle.std.specs.Prelude.{◌≡◌};
ghost use Rattle.dh_tree.specs.Seen.{action_seen, all_parts_seen, maybe_block_seen, program_seen};
ghost use Rattle.dh_tree.specs.Views.{groups_viewings, other_viewings, viewings, views_of};
ghost use Rattle.dh_viewing.specs.Judged.{is_any};

use dh_tree::{Command, CommandForm, Typed};

/// Whether a command is a view's, or holds one.
#[cycle(declaring)]
#[tactic(auto, using(dh_tree::proofs::SeenActions::actions_are, crate::proofs::DeclaredViews::any_both))]
fn declares(command: &Command) -> bool
    ensures { result ≡ is_any (viewings (action_seen command.now)) }
{
    match &command.form {
        CommandForm::View { .. } => true,
        CommandForm::Block { body } => parts_declare(body.as_slice()),
        CommandForm::If { then, other, .. } => declares(then) || other_declares(other),
        CommandForm::While { body, .. } => declares(body),
        CommandForm::For { body, combine, .. } => declares(body) || other_declares(combine),
        CommandForm::Let { .. }
        | CommandForm::LetMemory { .. }
        | CommandForm::Assign { .. }
        | CommandForm::Store { .. }
        | CommandForm::Reduce { .. }
        | CommandForm::Call { .. } => false,
    }
}

/// Whether a block that may lack holds one.
#[cycle(declaring)]
fn other_declares(other: &Option<Box<Command>>) -> bool
    ensures { result ≡ is_any (other_viewings (maybe_block_seen other.now)) }
{
    match other {
        Some(block) => declares(block),
        None => false,
    }
}

/// Whether one of these parts holds one.
#[cycle(declaring)]
#[tactic(auto, using(dh_tree::proofs::SeenActions::actions_are))]
fn parts_declare(parts: &[Vec<Command>]) -> bool
    ensures { result ≡ is_any (groups_viewings (all_parts_seen parts.now)) }
{
    for part in parts {
        for command in part {
            if declares(command) {
                return true;
            }
        }
    }
    false
}

/// Whether a program declares one. Where none of its entities is a view, this is told at once.
pub(crate) fn declares_view(typed: &Typed) -> bool
    ensures { result ≡ is_any (views_of (program_seen typed.now)) }
{
    if typed.has_no_view() {
        return false;
    }
    let tree = typed.tree();
    declares(&tree.body)
}
