//! Reducers, and the blocks in which they join copies.

ghost use Rattle.std.specs.Prelude.{◌≡◌};
ghost use Rattle.dh_tree.specs.LeastBreach.{least_of};
ghost use Rattle.dh_tree.specs.Placements as placements;
ghost use Rattle.dh_tree.specs.Placements.{folded_breaches, reducer_breaches, joined_breaches, combine_breaches};
ghost use Rattle.dh_tree.specs.Seen.{form_seen, term_seen, action_form_seen, action_seen, maybe_block_seen};

use crate::keeping::{is_from_outside, keep_if, names_variable};
use dh_base::{Place, Rule};
use dh_tree::{Breach, Command, CommandForm, Entity, Expr, ExprForm, Ref, has_dashes};

/// Whether an entity has a number above this one.
fn is_from_inside(iterator: u32, entity: Option<u32>) -> bool
    ensures { result ≡ placements.is_from_inside iterator entity }
{
    match entity {
        Some(entity) => iterator < entity,
        None => false,
    }
}

/// Whether a loop's copies may be folded into it: a variable that is declared outside the loop.
fn is_folded_into(entities: &[Entity], iterator: u32, target: Option<u32>) -> bool
    ensures { result ≡ placements.is_folded_into entities.now iterator target }
{
    names_variable(entities, target) && is_from_outside(iterator, target)
}

/// Whether it may be folded: the name of a variable that is declared in the loop's body.
#[tactic(auto, using(dh_tree::proofs::SeenTerms::terms_are))]
fn is_folded(entities: &[Entity], iterator: u32, value: &Expr) -> bool
    ensures { result ≡ placements.is_folded entities.now iterator (form_seen value.now.form) }
{
    match &value.form {
        ExprForm::Variable { of } => {
            names_variable(entities, of.entity) && is_from_inside(iterator, of.entity)
        }
        ExprForm::Number { .. } => false,
        ExprForm::Truth { .. } => false,
        ExprForm::Access { .. } => false,
        ExprForm::Physical { .. } => false,
        ExprForm::Binary { .. } => false,
        ExprForm::Cast { .. } => false,
    }
}

/// The breach of the right side of a reducer.
fn keep_folded(entities: &[Entity], iterator: u32, kept: &mut Option<Breach>, value: &Expr)
    ensures { kept.new ≡ least_of kept.old
        (folded_breaches entities.now iterator (term_seen value.now)) }
{
    let is_kept = is_folded(entities, iterator, value);
    keep_if(kept, !is_kept, Rule::Reducer, value.place);
}

/// Those of a reducer in a block that joins the copies of the loop with this iterator, or in none such.
#[tactic(auto, using(dh_tree::proofs::Leasts::least_append))]
pub(crate) fn keep_reducer(
    entities: &[Entity],
    joins: Option<u32>,
    kept: &mut Option<Breach>,
    target: &Ref,
    value: &Expr,
)
    ensures { kept.new ≡ least_of kept.old
        (reducer_breaches entities.now joins target.now (term_seen value.now)) }
{
    match joins {
        Some(iterator) => {
            let is_kept = is_folded_into(entities, iterator, target.entity);
            keep_if(kept, !is_kept, Rule::Reducer, target.place);
            keep_folded(entities, iterator, kept, value);
        }
        None => keep_if(kept, true, Rule::Reducer, target.place),
    }
}

/// Whether a command is a reducer.
#[tactic(auto, using(dh_tree::proofs::SeenActions::actions_are))]
fn is_reducer(form: &CommandForm) -> bool
    ensures { result ≡ placements.is_reducer (action_form_seen form.now) }
{
    match form {
        CommandForm::Reduce { .. } => true,
        CommandForm::Let { .. } => false,
        CommandForm::LetMemory { .. } => false,
        CommandForm::View { .. } => false,
        CommandForm::Assign { .. } => false,
        CommandForm::Store { .. } => false,
        CommandForm::Call { .. } => false,
        CommandForm::Block { .. } => false,
        CommandForm::If { .. } => false,
        CommandForm::While { .. } => false,
        CommandForm::For { .. } => false,
    }
}

/// A command that is no reducer, in a block that joins copies.
pub(crate) fn keep_joined(joins: Option<u32>, kept: &mut Option<Breach>, command: &Command)
    ensures { kept.new ≡ least_of kept.old (joined_breaches joins (action_seen command.now)) }
{
    let is_other = !is_reducer(&command.form);
    keep_if(
        kept,
        joins.is_some() & is_other,
        Rule::Reducer,
        command.place,
    );
}

/// Whether it is a block without `---`.
#[tactic(auto, using(dh_tree::proofs::SeenActions::actions_are))]
fn is_one_part(form: &CommandForm) -> bool
    ensures { result ≡ placements.is_one_part (action_form_seen form.now) }
{
    match form {
        CommandForm::Block { body } => !has_dashes(body.as_slice()),
        CommandForm::Let { .. } => false,
        CommandForm::LetMemory { .. } => false,
        CommandForm::View { .. } => false,
        CommandForm::Assign { .. } => false,
        CommandForm::Store { .. } => false,
        CommandForm::Reduce { .. } => false,
        CommandForm::Call { .. } => false,
        CommandForm::If { .. } => false,
        CommandForm::While { .. } => false,
        CommandForm::For { .. } => false,
    }
}

/// What joins copies and has a `---`, at the word `combine`.
pub(crate) fn keep_combine(kept: &mut Option<Breach>, combine: &Option<Box<Command>>, word: Place)
    ensures { kept.new ≡ least_of kept.old
        (combine_breaches (maybe_block_seen combine.now) word) }
{
    match combine {
        Some(block) => {
            let is_kept = is_one_part(&block.form);
            keep_if(kept, !is_kept, Rule::Reducer, word);
        }
        None => {}
    }
}
