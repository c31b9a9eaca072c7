//! Commands with their operators, casts and reducers, each once for each of its copies, added to a sum.

ghost use Rattle.std.specs.Prelude.{◌≡◌};
ghost use Rattle.dh_tree.specs.Seen.{action_seen, all_parts_seen, maybe_block_seen};
ghost use Rattle.dh_size.specs.Summed.{groups_unit, other_unit, capped_sum, unit_size};

use crate::operators::{with_offsets, with_operators, with_value};
use dh_tree::{Command, CommandForm};

/// A sum and the size of a command that no loop copies, with the commands inside it.
#[cycle(counting)]
#[tactic(auto, using(dh_tree::proofs::SeenActions::actions_are))]
pub fn with_command(sum: u64, command: &Command) -> u64
    ensures { result ≡ capped_sum sum (unit_size (action_seen command.now)) }
{
    let own = sum.saturating_add(1);
    match &command.form {
        CommandForm::Let { value, .. } => with_value(own, value),
        CommandForm::Assign { value, .. } => with_operators(own, value),
        CommandForm::Reduce { value, .. } => with_operators(own, value).saturating_add(1),
        CommandForm::Store { sides } => {
            let sides = sides.as_ref();
            let next = with_operators(own, &sides.value);
            with_operators(next, &sides.target)
        }
        CommandForm::If { test, then, other } => {
            let tests = with_operators(own, test);
            let next = with_command(tests, then);
            with_other(next, other)
        }
        CommandForm::While { test, body } => {
            let next = with_operators(own, test);
            with_command(next, body)
        }
        CommandForm::For {
            header,
            body,
            combine,
        } => {
            let header = header.as_ref();
            let turn = with_command(0, body);
            let inner = with_other(turn, combine);
            own.saturating_add(header.factor.saturating_mul(inner))
        }
        CommandForm::Block { body } => with_parts(own, body.as_slice()),
        CommandForm::LetMemory { .. } => own,
        CommandForm::View { form, .. } => with_offsets(own, form),
        CommandForm::Call { .. } => own,
    }
}

/// That of a block that may lack.
#[cycle(counting)]
fn with_other(sum: u64, other: &Option<Box<Command>>) -> u64
    ensures { result ≡ capped_sum sum (other_unit (maybe_block_seen other.now)) }
{
    match other {
        Some(block) => with_command(sum, block),
        None => sum,
    }
}

/// That of the parts between `---`.
#[cycle(counting)]
#[tactic(auto, using(dh_tree::proofs::SeenActions::actions_are))]
fn with_parts(sum: u64, parts: &[Vec<Command>]) -> u64
    ensures { result ≡ capped_sum sum (groups_unit (all_parts_seen parts.now)) }
{
    let mut next = sum;
    for part in parts {
        for command in part {
            next = with_command(next, command);
        }
    }
    next
}
