//! How many copies there are of one place.

ghost use Rattle.std.specs.Prelude.{◌≡◌};
ghost use Rattle.dh_shape.specs.Above.{copies_in_command, copies_in_other, copies_in_parts};

use crate::counting::{excess, first_of, product};
use dh_base::{Excess, Limit};
use dh_tree::{Command, CommandForm};

/// The first excess of copies in a command round which there are so many.
#[cycle(copies)]
#[tactic(auto, using(dh_tree::proofs::SeenActions::actions_are))]
pub(crate) fn copies_above(round: u64, command: &Command) -> Option<Excess>
    ensures { result ≡ copies_in_command round command.now }
{
    match &command.form {
        CommandForm::Block { body } => copies_above_in_parts(round, body.as_slice()),
        CommandForm::If { then, other, .. } => {
            let chosen = copies_above(round, then);
            first_of(chosen, copies_above_in_other(round, other))
        }
        CommandForm::While { body, .. } => copies_above(round, body),
        CommandForm::For {
            header,
            body,
            combine,
        } => {
            let header = header.as_ref();
            // where it is not the first excess, it is below the limit, and so is not cut off
            let inside = product(round, header.factor);
            let inner = copies_above(inside, body);
            let behind = first_of(inner, copies_above_in_other(inside, combine));
            first_of(excess(Limit::Copies, inside), behind)
        }
        CommandForm::Let { .. } => None,
        CommandForm::LetMemory { .. } => None,
        CommandForm::View { .. } => None,
        CommandForm::Assign { .. } => None,
        CommandForm::Store { .. } => None,
        CommandForm::Reduce { .. } => None,
        CommandForm::Call { .. } => None,
    }
}

/// That in a block that may lack.
#[cycle(copies)]
fn copies_above_in_other(round: u64, other: &Option<Box<Command>>) -> Option<Excess>
    ensures { result ≡ copies_in_other round other.now }
{
    match other {
        Some(block) => copies_above(round, block),
        None => None,
    }
}

/// That in the parts between `---`.
#[cycle(copies)]
#[tactic(auto, using(dh_tree::proofs::SeenActions::actions_are))]
fn copies_above_in_parts(round: u64, parts: &[Vec<Command>]) -> Option<Excess>
    ensures { result ≡ copies_in_parts round parts.now }
{
    let mut found = None;
    for part in parts {
        for command in part {
            found = first_of(found, copies_above(round, command));
        }
    }
    found
}
