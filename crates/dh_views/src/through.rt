//! Accesses through views, and the offsets of views.

ghost use Rattle.std.specs.Prelude.{◌≡◌, map};
ghost use Rattle.dh_tree.specs.LeastBreach.{least_of};
ghost use Rattle.dh_tree.specs.Seen.{view_plan, term_seen};
ghost use Rattle.dh_tree.specs.ViewBreaches.{physical_broken};
ghost use Rattle.dh_tree.specs.ViewOffsets.{offsets_of};
ghost use Rattle.dh_tree.specs.Views.{view_in};
ghost use Rattle.dh_views.specs.Through.{command_viewed, maybe_viewed, multiples_viewed, offset_viewed, offsets_viewed, other_viewed, parts_viewed, term_viewed, terms_viewed, through_broken};

use crate::accesses::keep_indices;
use crate::keeping::keep_if;
use crate::walks::keep_term;
use dh_base::Rule;
use dh_tree::{Breach, Command, CommandForm, Expr, ExprForm, Ref, Typed, ViewForm};
use dh_viewing::JudgedViews;

/// The breaches of the indices of an access, by the entity of its name, where that is a view that keeps the
/// rules.
fn keep_through(
    typed: &Typed,
    views: &JudgedViews,
    kept: &mut Option<Breach>,
    of: Option<u32>,
    indices: &[Expr],
)
    ensures { kept.new ≡ least_of kept.old (through_broken typed.now views.now of indices.now) }
{
    match views.kept_dims(of) {
        Some(dims) => keep_indices(typed, kept, dims, indices),
        None => {}
    }
}

/// The breach of an access to a bank at its name, where that is a view.
fn keep_name(views: &JudgedViews, kept: &mut Option<Breach>, of: &Ref)
    ensures { kept.new
        ≡ least_of kept.old (physical_broken (view_in views.now.all of.now.entity) of.now) }
{
    let is_view = views.has_view(of.entity);
    keep_if(kept, is_view, Rule::ViewFactor, of.place);
}

/// The breaches in an expression.
#[cycle(viewed_terms)]
#[tactic(auto, using(dh_tree::proofs::SeenTerms::terms_are, dh_tree::proofs::Leasts::least_append))]
fn keep_viewed(typed: &Typed, views: &JudgedViews, kept: &mut Option<Breach>, term: &Expr)
    ensures { kept.new ≡ least_of kept.old (term_viewed typed.now views.now term.now) }
{
    match &term.form {
        ExprForm::Number { .. } => {}
        ExprForm::Truth { .. } => {}
        ExprForm::Variable { .. } => {}
        ExprForm::Access { of, indices } => {
            keep_through(typed, views, kept, of.entity, indices.as_slice());
            keep_all_viewed(typed, views, kept, indices.as_slice());
        }
        ExprForm::Physical { of, row, .. } => {
            keep_name(views, kept, of);
            keep_viewed(typed, views, kept, row);
        }
        ExprForm::Binary { left, right, .. } => {
            keep_viewed(typed, views, kept, left);
            keep_viewed(typed, views, kept, right);
        }
        ExprForm::Cast { inner, .. } => keep_viewed(typed, views, kept, inner),
    }
}

/// Those in expressions.
#[cycle(viewed_terms)]
#[tactic(auto, using(dh_tree::proofs::SeenTerms::terms_are, dh_tree::proofs::Leasts::least_append))]
fn keep_all_viewed(typed: &Typed, views: &JudgedViews, kept: &mut Option<Breach>, indices: &[Expr])
    ensures { kept.new ≡ least_of kept.old (terms_viewed typed.now views.now indices.now) }
{
    for index in indices {
        keep_viewed(typed, views, kept, index);
    }
}

/// Those in an expression that may lack.
fn keep_maybe_viewed(
    typed: &Typed,
    views: &JudgedViews,
    kept: &mut Option<Breach>,
    value: &Option<Expr>,
)
    ensures { kept.new ≡ least_of kept.old (maybe_viewed typed.now views.now value.now) }
{
    match value {
        Some(value) => keep_viewed(typed, views, kept, value),
        None => {}
    }
}

/// Those in an offset, of accesses of memories too.
#[tactic(auto, using(dh_tree::proofs::Leasts::least_append))]
fn keep_offset(typed: &Typed, views: &JudgedViews, kept: &mut Option<Breach>, offset: &Expr)
    ensures { kept.new ≡ least_of kept.old (offset_viewed typed.now views.now offset.now) }
{
    keep_term(typed, kept, offset);
    keep_viewed(typed, views, kept, offset);
}

/// Those in the offsets of a suffix, each of which stands behind its factor.
fn keep_multiples(typed: &Typed, views: &JudgedViews, kept: &mut Option<Breach>, by: &[(u64, Expr)])
    ensures { kept.new ≡ least_of kept.old (multiples_viewed typed.now views.now by.now) }
{
    for pair in by {
        keep_offset(typed, views, kept, &pair.1);
    }
}

/// Those in the offsets of a shift.
fn keep_shifts(typed: &Typed, views: &JudgedViews, kept: &mut Option<Breach>, by: &[Expr])
    ensures { kept.new ≡ least_of kept.old
        (offsets_viewed typed.now views.now (map term_seen by.now)) }
{
    for offset in by {
        keep_offset(typed, views, kept, offset);
    }
}

/// Those in the offsets of a view.
fn keep_offsets(typed: &Typed, views: &JudgedViews, kept: &mut Option<Breach>, form: &ViewForm)
    ensures { kept.new ≡ least_of kept.old
        (offsets_viewed typed.now views.now (offsets_of (view_plan form.now))) }
{
    match form {
        ViewForm::Shrink { .. } => {}
        ViewForm::Split { .. } => {}
        ViewForm::Suffix { by, .. } => keep_multiples(typed, views, kept, by.as_slice()),
        ViewForm::Shift { by } => keep_shifts(typed, views, kept, by.as_slice()),
    }
}

/// The breaches in a command.
#[cycle(viewed_commands)]
#[tactic(auto, using(dh_tree::proofs::SeenActions::actions_are, dh_tree::proofs::Leasts::least_append))]
pub(crate) fn keep_viewed_command(
    typed: &Typed,
    views: &JudgedViews,
    kept: &mut Option<Breach>,
    command: &Command,
)
    ensures { kept.new ≡ least_of kept.old (command_viewed typed.now views.now command.now) }
{
    match &command.form {
        CommandForm::Let { value, .. } => keep_maybe_viewed(typed, views, kept, value),
        CommandForm::LetMemory { value, .. } => keep_maybe_viewed(typed, views, kept, value),
        CommandForm::View { form, .. } => keep_offsets(typed, views, kept, form),
        CommandForm::Assign { value, .. } => keep_viewed(typed, views, kept, value),
        CommandForm::Store { sides } => {
            let sides = sides.as_ref();
            keep_viewed(typed, views, kept, &sides.target);
            keep_viewed(typed, views, kept, &sides.value);
        }
        CommandForm::Reduce { value, .. } => keep_viewed(typed, views, kept, value),
        CommandForm::If { test, then, other } => {
            keep_viewed(typed, views, kept, test);
            keep_viewed_command(typed, views, kept, then);
            keep_viewed_other(typed, views, kept, other);
        }
        CommandForm::While { test, body } => {
            keep_viewed(typed, views, kept, test);
            keep_viewed_command(typed, views, kept, body);
        }
        CommandForm::For { body, combine, .. } => {
            keep_viewed_command(typed, views, kept, body);
            keep_viewed_other(typed, views, kept, combine);
        }
        CommandForm::Block { body } => keep_viewed_parts(typed, views, kept, body.as_slice()),
        CommandForm::Call { .. } => {}
    }
}

/// Those in a block that may lack.
#[cycle(viewed_commands)]
fn keep_viewed_other(
    typed: &Typed,
    views: &JudgedViews,
    kept: &mut Option<Breach>,
    other: &Option<Box<Command>>,
)
    ensures { kept.new ≡ least_of kept.old (other_viewed typed.now views.now other.now) }
{
    match other {
        Some(block) => keep_viewed_command(typed, views, kept, block),
        None => {}
    }
}

/// Those in the parts between `---`.
#[cycle(viewed_commands)]
#[tactic(auto, using(dh_tree::proofs::SeenActions::actions_are, dh_tree::proofs::Leasts::least_append))]
fn keep_viewed_parts(
    typed: &Typed,
    views: &JudgedViews,
    kept: &mut Option<Breach>,
    parts: &[Vec<Command>],
)
    ensures { kept.new ≡ least_of kept.old (parts_viewed typed.now views.now parts.now) }
{
    for part in parts {
        for command in part {
            keep_viewed_command(typed, views, kept, command);
        }
    }
}
