//! The names within expressions.

ghost use Rattle.std.specs.Prelude.{◌≡◌};
ghost use Rattle.dh_tree.specs.Seen.{term_seen, form_seen, expressions_seen};
ghost use Rattle.dh_tree.specs.Breaches.{term_breaches, term_form_breaches, list_breaches};
ghost use Rattle.dh_tree.specs.Resolved.{resolved_term_form};
ghost use Rattle.dh_names.specs.Visible.{visible, LeastBy};
ghost use Rattle.dh_names.specs.InTrees.{ResolvesTerm, ResolvesTerms};

use crate::scopes::{VisibleNames, resolve_use};
use dh_tree::{Breach, Expr, ExprForm};

/// Gives the names of an expression their numbers, and keeps the breaches.
#[cycle(expressions)]
pub fn resolve_term(names: &VisibleNames, least: &mut Option<Breach>, term: &mut Expr)
    ensures tree { ResolvesTerm (visible names.now) term.old term.new }
    ensures least { LeastBy term_breaches names.now least.old least.new (term_seen term.old) }
{
    resolve_form(names, least, &mut term.form);
}

// The names within an expression. The form stays where it is.
#[cycle(expressions)]
#[tactic(auto, using(dh_tree::proofs::SeenTerms::terms_are, dh_tree::proofs::Leasts::least_append))]
fn resolve_form(names: &VisibleNames, least: &mut Option<Breach>, form: &mut ExprForm)
    ensures tree { form_seen form.new ≡ resolved_term_form (visible names.now)
        (form_seen form.old) }
    ensures least { LeastBy term_form_breaches names.now least.old least.new (form_seen form.old) }
{
    match form {
        ExprForm::Number { .. } => {}
        ExprForm::Truth { .. } => {}
        ExprForm::Variable { of } => resolve_use(names, least, of),
        ExprForm::Access { of, indices } => {
            resolve_use(names, least, of);
            resolve_terms(names, least, indices);
        }
        ExprForm::Physical { of, row, .. } => {
            resolve_use(names, least, of);
            resolve_term(names, least, row);
        }
        ExprForm::Binary { left, right, .. } => {
            resolve_term(names, least, left);
            resolve_term(names, least, right);
        }
        ExprForm::Cast { inner, .. } => resolve_term(names, least, inner),
    }
}

/// Gives the names of expressions in order their numbers, and keeps the breaches.
#[cycle(expressions)]
pub fn resolve_terms(names: &VisibleNames, least: &mut Option<Breach>, terms: &mut Vec<Expr>)
    ensures tree { ResolvesTerms (visible names.now) terms.old terms.new }
    ensures least { LeastBy list_breaches names.now least.old least.new
        (expressions_seen terms.old) }
{
    for term in terms.iter_mut() {
        resolve_term(names, least, term);
    }
}
