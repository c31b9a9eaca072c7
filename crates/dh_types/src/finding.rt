//! The kind of an expression, by its parts, which have their kinds.

ghost use Rattle.std.specs.Prelude.{◌≡◌};
ghost use Rattle.dh_tree.specs.Seen.{term_seen, form_seen, all_terms_seen};
ghost use Rattle.dh_tree.specs.Kinds as rules;
ghost use Rattle.dh_types.specs.Facts.{facts_seen, known_fact, has_integer};
ghost use Rattle.dh_types.specs.InTrees.{are_right_indices};
ghost use Rattle.dh_types.specs.Leaves.{is_leaf_form, is_number_form, leaf_found};

use crate::facts::{Fact, fact_of};
use crate::operands::applied_kind;
use crate::sorts::{is_integer, is_truth, is_value};
use dh_tree::{Expr, ExprForm, Kind};

// The kind that a number takes: that of its place, or else the signed one of 32 bits.
fn number_kind(want: Option<Kind>, negative: bool, value: u64) -> Option<Kind>
    ensures { result ≡ rules.number_found (rules.number_kind want) negative value }
{
    let kind = match want {
        Some(kind) => kind,
        None => Kind::Signed(32),
    };
    if is_value(kind, negative, value) {
        Some(kind)
    } else {
        None
    }
}

/// The kind of a name that is used as a value.
pub fn value_kind(fact: Option<&Fact>) -> Option<Kind>
    ensures { result ≡ rules.value_kind (known_fact fact.entry) }
{
    match fact {
        Some(Fact::Variable { kind }) => *kind,
        Some(Fact::Iterator { kind }) => Some(*kind),
        _ => None,
    }
}

// Whether an expression is of an integer kind.
fn is_number(term: &Expr) -> bool
    ensures { result ≡ has_integer (rules.found (term_seen term.now)) }
{
    match term.kind {
        Some(kind) => is_integer(kind),
        None => false,
    }
}

// Whether every index is of an integer kind.
fn all_integer(indices: &[Expr]) -> bool
    ensures { result ≡ rules.all_integer (all_terms_seen indices.now) }
{
    for index in indices {
        if !is_number(index) {
            return false;
        }
    }
    true
}

// Whether indices are integers and as many as the dimensions.
#[tactic(auto, using(crate::proofs::Indices::counted))]
fn suit(indices: &[Expr], dims: usize) -> bool
    ensures { result ≡ are_right_indices (all_terms_seen indices.now) dims }
{
    all_integer(indices) && indices.len() == dims
}

// The kind of an access.
fn access_kind(fact: Option<&Fact>, indices: &[Expr]) -> Option<Kind>
    ensures { result ≡ rules.access_found (known_fact fact.entry) (all_terms_seen indices.now) }
{
    match fact {
        Some(Fact::Memory { kind, dims }) => { if suit(indices, *dims) { *kind } else { None } }
        _ => None,
    }
}

// The kind of a physical access to a row of this kind.
fn bank_kind(fact: Option<&Fact>, row: Option<Kind>) -> Option<Kind>
    ensures { result ≡ rules.bank_found (known_fact fact.entry) row }
{
    match (fact, row) {
        (Some(Fact::Memory { kind, .. }), Some(row)) if is_integer(row) => *kind,
        _ => None,
    }
}

// The kind of a cast of an expression of this kind.
fn cast_kind(inner: Option<Kind>, to: Kind) -> Option<Kind>
    ensures { result ≡ rules.cast_found inner to }
{
    match inner {
        Some(_) if !is_truth(to) => Some(to),
        _ => None,
    }
}

/// Whether it is a number, which takes the kind of its place.
#[tactic(auto, using(dh_tree::proofs::SeenTerms::terms_are))]
pub fn is_bare_number(form: &ExprForm) -> bool
    ensures { result ≡ is_number_form (form_seen form.now) }
{
    match form {
        ExprForm::Number { .. } => true,
        ExprForm::Truth { .. }
        | ExprForm::Variable { .. }
        | ExprForm::Access { .. }
        | ExprForm::Physical { .. }
        | ExprForm::Binary { .. }
        | ExprForm::Cast { .. } => false,
    }
}

/// Whether it is a number, a truth or a name alone, which have no parts.
#[tactic(auto, using(dh_tree::proofs::SeenTerms::terms_are))]
pub fn is_leaf(form: &ExprForm) -> bool
    ensures { result ≡ is_leaf_form (form_seen form.now) }
{
    match form {
        ExprForm::Number { .. } | ExprForm::Truth { .. } | ExprForm::Variable { .. } => true,
        ExprForm::Access { .. }
        | ExprForm::Physical { .. }
        | ExprForm::Binary { .. }
        | ExprForm::Cast { .. } => false,
    }
}

/// The kind of a number, a truth or a name alone; none of other forms.
#[tactic(auto, using(dh_tree::proofs::SeenTerms::terms_are))]
pub fn leaf_kind(facts: &[Fact], want: Option<Kind>, form: &ExprForm) -> Option<Kind>
    ensures { result ≡ leaf_found (facts_seen facts.now) want (form_seen form.now) }
{
    match form {
        ExprForm::Number { negative, value } => number_kind(want, *negative, *value),
        ExprForm::Truth { .. } => Some(Kind::Bool),
        ExprForm::Variable { of } => value_kind(fact_of(facts, of)),
        ExprForm::Access { .. }
        | ExprForm::Physical { .. }
        | ExprForm::Binary { .. }
        | ExprForm::Cast { .. } => None,
    }
}

/// The kind of an expression of this form, whose parts have their kinds; a number takes the kind that is
/// wanted.
#[tactic(auto, using(dh_tree::proofs::SeenTerms::terms_are))]
pub fn kind_found(facts: &[Fact], want: Option<Kind>, form: &ExprForm) -> Option<Kind>
    ensures { result ≡ rules.form_found (facts_seen facts.now) want (form_seen form.now) }
{
    match form {
        ExprForm::Number { negative, value } => number_kind(want, *negative, *value),
        ExprForm::Truth { .. } => Some(Kind::Bool),
        ExprForm::Variable { of } => value_kind(fact_of(facts, of)),
        ExprForm::Access { of, indices } => access_kind(fact_of(facts, of), indices),
        ExprForm::Physical { of, row, .. } => bank_kind(fact_of(facts, of), row.kind),
        ExprForm::Binary { op, left, right } => {
            applied_kind(*op, (left.place, left.kind), (right.place, right.kind))
        }
        ExprForm::Cast { inner, to } => cast_kind(inner.kind, *to),
    }
}
