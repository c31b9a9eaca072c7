//! The operators and casts of expressions, added to a sum. A sum stops at the greatest number of its type; what is
//! reported of a size stops far below.

ghost use Rattle.std.specs.Prelude.{◌≡◌, option_map};
ghost use Rattle.dh_plan.specs.PlanSizes.{maybe_operators, term_operators, terms_operators};
ghost use Rattle.dh_tree.specs.Seen.{all_terms_seen, view_plan, term_seen, terms};
ghost use Rattle.dh_tree.specs.ViewOffsets.{offsets_of};
ghost use Rattle.dh_size.specs.Summed.{suffix_operators, capped_sum};

use dh_tree::{Expr, ExprForm, ViewForm};

/// A sum and the operators and casts of an expression.
#[cycle(counting_terms)]
#[tactic(auto, using(dh_tree::proofs::SeenTerms::terms_are))]
pub fn with_operators(sum: u64, value: &Expr) -> u64
    ensures { result ≡ capped_sum sum (term_operators (term_seen value.now)) }
{
    match &value.form {
        ExprForm::Number { .. } => sum,
        ExprForm::Truth { .. } => sum,
        ExprForm::Variable { .. } => sum,
        ExprForm::Access { indices, .. } => with_all_operators(sum, indices.as_slice()),
        ExprForm::Physical { row, .. } => with_operators(sum, row),
        ExprForm::Binary { left, right, .. } => {
            let next = with_operators(sum, left);
            with_operators(next, right).saturating_add(1)
        }
        ExprForm::Cast { inner, .. } => with_operators(sum, inner).saturating_add(1),
    }
}

/// Those of indices.
#[cycle(counting_terms)]
fn with_all_operators(sum: u64, indices: &[Expr]) -> u64
    ensures { result ≡ capped_sum sum (terms_operators (all_terms_seen indices.now)) }
{
    let mut next = sum;
    for index in indices {
        next = with_operators(next, index);
    }
    next
}

/// Those of a value that may lack.
pub fn with_value(sum: u64, value: &Option<Expr>) -> u64
    ensures { result ≡ capped_sum sum (maybe_operators (option_map term_seen value.now)) }
{
    match value {
        Some(value) => with_operators(sum, value),
        None => sum,
    }
}

/// Those of the offsets of a suffix.
fn with_suffixes(sum: u64, by: &[(u64, Expr)]) -> u64
    ensures { result ≡ capped_sum sum (suffix_operators by.now) }
{
    let mut next = sum;
    for pair in by {
        next = with_operators(next, &pair.1);
    }
    next
}

/// Those of the offsets of a view.
pub fn with_offsets(sum: u64, form: &ViewForm) -> u64
    ensures { result ≡ capped_sum sum (terms_operators (terms (offsets_of (view_plan form.now)))) }
{
    match form {
        ViewForm::Shrink { .. } => sum,
        ViewForm::Split { .. } => sum,
        ViewForm::Suffix { by, .. } => with_suffixes(sum, by.as_slice()),
        ViewForm::Shift { by } => with_all_operators(sum, by.as_slice()),
    }
}
