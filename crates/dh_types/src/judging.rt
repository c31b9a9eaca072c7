//! Breaches of the rules on kinds in expressions that have their kinds, and at the places of commands
//! where they stand.

ghost use Rattle.std.specs.Prelude.{◌≡◌};
ghost use Rattle.std.specs.Option.{is_some};
ghost use Rattle.dh_tree.specs.Seen.{term_seen, placed, all_terms_seen};
ghost use Rattle.dh_tree.specs.Kinds as rules;
ghost use Rattle.dh_tree.specs.KindBreaches.{term_kind_breaches, indices_kind_breaches, offset_breaches, assigned_breaches, truth_breaches, condition_breaches, argument_breaches, target_breaches, parent_breaches, reducer_kind_breaches, iterator_breaches, low_breaches, high_breaches};
ghost use Rattle.dh_types.specs.Facts.{facts_seen, known_fact, listed_breach, is_memory as names_it, is_memory_name};
ghost use Rattle.dh_types.specs.InTrees.{have_wrong_count};
ghost use Rattle.dh_types.specs.Judging.{JudgesAccess, KeepsBy, breaches_for};
ghost use Rattle.dh_types.specs.Leaves.{is_sound, names_value};

use crate::facts::{Fact, fact_of};
use crate::keeping::{keep, lost_unless, mismatch_unless};
use crate::operands::applied_breach;
use crate::sorts::{are_alike, is_integer, is_truth, is_value, is_wider};
use dh_base::Place;
use dh_tree::{Breach, Expr, ExprForm, Kind, Ref};

// The breach of a name that is used as a value.
fn value_breach(fact: Option<&Fact>, place: Place) -> Option<Breach>
    ensures { listed_breach result ≡ rules.value_breaches (known_fact fact.entry) place }
{
    match fact {
        Some(Fact::Memory { .. } | Fact::Function { .. }) => mismatch_unless(false, place),
        Some(Fact::Variable { .. } | Fact::Iterator { .. }) | None => None,
    }
}

// Whether an expression has a kind.
fn has_kind(term: &Expr) -> bool
    ensures { result ≡ is_some (rules.found (term_seen term.now)) }
{
    term.kind.is_some()
}

// Whether each of the indices has a kind.
fn all_found(indices: &[Expr]) -> bool
    ensures { result ≡ rules.all_found (all_terms_seen indices.now) }
{
    for index in indices {
        if !has_kind(index) {
            return false;
        }
    }
    true
}

// Whether indices have kinds and are not as many as the dimensions.
#[tactic(auto, using(crate::proofs::Indices::counted))]
fn are_miscounted(indices: &[Expr], dims: usize) -> bool
    ensures { result ≡ have_wrong_count (all_terms_seen indices.now) dims }
{
    all_found(indices) && indices.len() != dims
}

// The breach at the name of an access.
fn access_breach(fact: Option<&Fact>, place: Place, indices: &[Expr]) -> Option<Breach>
    ensures { JudgesAccess fact.entry place indices.now result }
{
    match fact {
        Some(Fact::Memory { dims, .. }) => {
            mismatch_unless(!are_miscounted(indices, *dims), place)
        }
        Some(_) => mismatch_unless(false, place),
        None => None,
    }
}

// The breach of a name at whose place a memory or a view stands.
fn memory_breach(fact: Option<&Fact>, place: Place) -> Option<Breach>
    ensures { listed_breach result ≡ rules.bank_breaches (known_fact fact.entry) place }
{
    match fact {
        Some(Fact::Memory { .. }) | None => None,
        Some(_) => mismatch_unless(false, place),
    }
}

// The breach of an index, an offset or a row of this kind.
fn index_breach(kind: Option<Kind>, place: Place) -> Option<Breach>
    ensures { listed_breach result ≡ rules.index_breaches kind place }
{
    match kind {
        Some(kind) => mismatch_unless(is_integer(kind), place),
        None => None,
    }
}

// The breach of a cast of an expression of this kind.
fn cast_breach(place: Place, inner: Option<Kind>, to: Kind) -> Option<Breach>
    ensures { listed_breach result ≡ rules.cast_breaches place inner to }
{
    match inner {
        Some(_) => mismatch_unless(!is_truth(to), place),
        None => None,
    }
}

// Whether a name that is used as a value breaks no rule.
fn is_value_name(fact: Option<&Fact>) -> bool
    ensures { result ≡ names_value (known_fact fact.entry) }
{
    match fact {
        Some(Fact::Memory { .. } | Fact::Function { .. }) => false,
        Some(Fact::Variable { .. } | Fact::Iterator { .. }) | None => true,
    }
}

// Whether it is a number that has a kind, a truth or the name of a value, of which nothing is to be
// kept. Most parts of expressions are.
#[tactic(auto, using(dh_tree::proofs::SeenTerms::terms_are))]
fn is_sound_leaf(facts: &[Fact], term: &Expr) -> bool
    ensures { result ≡ is_sound (facts_seen facts.now) (term_seen term.now) }
{
    match &term.form {
        ExprForm::Number { .. } => term.kind.is_some(),
        ExprForm::Truth { .. } => true,
        ExprForm::Variable { of } => is_value_name(fact_of(facts, of)),
        ExprForm::Access { .. }
        | ExprForm::Physical { .. }
        | ExprForm::Binary { .. }
        | ExprForm::Cast { .. } => false,
    }
}

/// Keeps the breaches of an expression.
#[cycle(breaches)]
#[tactic(auto, using(dh_tree::proofs::SeenTerms::terms_are, dh_tree::proofs::Leasts::least_append))]
pub fn keep_term(facts: &[Fact], kept: &mut Option<Breach>, term: &Expr)
    ensures { KeepsBy term_kind_breaches facts.now kept.old kept.new (term_seen term.now) }
{
    let place = term.place;
    match &term.form {
        ExprForm::Number { .. } => keep(kept, lost_unless(term.kind.is_some(), place)),
        ExprForm::Truth { .. } => {}
        ExprForm::Variable { of } => keep(kept, value_breach(fact_of(facts, of), place)),
        ExprForm::Access { of, indices } => {
            keep(kept, access_breach(fact_of(facts, of), place, indices));
            keep_indices(facts, kept, indices);
        }
        ExprForm::Physical { of, row, .. } => {
            keep(kept, memory_breach(fact_of(facts, of), place));
            keep(kept, index_breach(row.kind, row.place));
            keep_part(facts, kept, row);
        }
        ExprForm::Binary { op, left, right } => {
            let breach = applied_breach(*op, (left.place, left.kind), (right.place, right.kind));
            keep(kept, breach);
            keep_part(facts, kept, left);
            keep_part(facts, kept, right);
        }
        ExprForm::Cast { inner, to } => {
            keep(kept, cast_breach(place, inner.kind, *to));
            keep_part(facts, kept, inner);
        }
    }
}

/// As `keep_term`, and most parts of expressions are seen without a call.
#[cycle(breaches)]
pub fn keep_part(facts: &[Fact], kept: &mut Option<Breach>, term: &Expr)
    ensures { KeepsBy term_kind_breaches facts.now kept.old kept.new (term_seen term.now) }
{
    if !is_sound_leaf(facts, term) {
        keep_term(facts, kept, term);
    }
}

// Keeps the breaches of indices.
#[cycle(breaches)]
fn keep_indices(facts: &[Fact], kept: &mut Option<Breach>, indices: &[Expr])
    ensures { KeepsBy indices_kind_breaches facts.now kept.old kept.new
        (all_terms_seen indices.now) }
{
    for index in indices {
        keep(kept, index_breach(index.kind, index.place));
        keep_part(facts, kept, index);
    }
}

/// Keeps the breaches of an offset.
#[tactic(auto, using(dh_tree::proofs::Leasts::least_append))]
pub fn keep_offset(facts: &[Fact], kept: &mut Option<Breach>, offset: &Expr)
    ensures { KeepsBy offset_breaches facts.now kept.old kept.new (term_seen offset.now) }
{
    keep(kept, index_breach(offset.kind, offset.place));
    keep_part(facts, kept, offset);
}

// The breach of a right side of a kind for a target of a kind.
fn assigned_breach(target: Option<Kind>, value: Option<Kind>, place: Place) -> Option<Breach>
    ensures { listed_breach result ≡ assigned_breaches target value place }
{
    match (target, value) {
        (Some(target), Some(value)) => {
            if are_alike(target, value) {
                lost_unless(!is_wider(value, target), place)
            } else {
                mismatch_unless(false, place)
            }
        }
        _ => None,
    }
}

/// Keeps the breaches of a right side for a target of this kind.
#[tactic(auto, using(dh_tree::proofs::Leasts::least_append))]
pub fn keep_right_side(
    facts: &[Fact],
    kept: &mut Option<Breach>,
    target: Option<Kind>,
    value: &Expr,
)
    ensures { KeepsBy (breaches_for target) facts.now kept.old kept.new (term_seen value.now) }
{
    keep(kept, assigned_breach(target, value.kind, value.place));
    keep_part(facts, kept, value);
}

// The breach of a condition of this kind.
fn truth_breach(kind: Option<Kind>, place: Place) -> Option<Breach>
    ensures { listed_breach result ≡ truth_breaches kind place }
{
    match kind {
        Some(kind) => mismatch_unless(is_truth(kind), place),
        None => None,
    }
}

/// Keeps the breaches of a condition.
#[tactic(auto, using(dh_tree::proofs::Leasts::least_append))]
pub fn keep_condition(facts: &[Fact], kept: &mut Option<Breach>, test: &Expr)
    ensures { KeepsBy condition_breaches facts.now kept.old kept.new (term_seen test.now) }
{
    keep(kept, truth_breach(test.kind, test.place));
    keep_part(facts, kept, test);
}

// Whether it is a memory or a view.
fn is_memory(fact: Option<&Fact>) -> bool
    ensures { result ≡ names_it (known_fact fact.entry) }
{
    match fact {
        Some(Fact::Memory { .. }) => true,
        _ => false,
    }
}

// Whether an expression is the name of a memory or a view.
#[tactic(auto, using(dh_tree::proofs::SeenTerms::terms_are))]
fn names_memory(facts: &[Fact], term: &Expr) -> bool
    ensures { result ≡ is_memory_name (facts_seen facts.now) (term_seen term.now) }
{
    match &term.form {
        ExprForm::Variable { of } => is_memory(fact_of(facts, of)),
        ExprForm::Number { .. }
        | ExprForm::Truth { .. }
        | ExprForm::Access { .. }
        | ExprForm::Physical { .. }
        | ExprForm::Binary { .. }
        | ExprForm::Cast { .. } => false,
    }
}

/// Keeps the breaches of an argument: the name of a memory or a view is left to another rule.
pub fn keep_argument(facts: &[Fact], kept: &mut Option<Breach>, argument: &Expr)
    ensures { KeepsBy argument_breaches facts.now kept.old kept.new (term_seen argument.now) }
{
    if !names_memory(facts, argument) {
        keep_part(facts, kept, argument);
    }
}

/// The breach of the name of what is assigned to, where it stands for no variable; an iterator is left
/// to another rule.
pub fn target_breach(fact: Option<&Fact>, place: Place) -> Option<Breach>
    ensures { listed_breach result ≡ target_breaches (known_fact fact.entry) place }
{
    match fact {
        Some(Fact::Memory { .. } | Fact::Function { .. }) => mismatch_unless(false, place),
        Some(Fact::Variable { .. } | Fact::Iterator { .. }) | None => None,
    }
}

/// The breach of the name of a view's parent, where it stands for no memory and no view.
pub fn parent_breach(fact: Option<&Fact>, place: Place) -> Option<Breach>
    ensures { listed_breach result ≡ parent_breaches (known_fact fact.entry) place }
{
    memory_breach(fact, place)
}

/// The breach of a reducer whose target is Bool.
pub fn reducer_breach(target: Option<Kind>, value: Option<Kind>, place: Place) -> Option<Breach>
    ensures { listed_breach result ≡ reducer_kind_breaches target value place }
{
    match (target, value) {
        (Some(target), Some(_)) => mismatch_unless(!is_truth(target), place),
        _ => None,
    }
}

/// The breach of an iterator that is declared Bool.
pub fn iterator_breach(iterator: &Ref, kind: Kind) -> Option<Breach>
    ensures { listed_breach result ≡ iterator_breaches iterator.now kind }
{
    mismatch_unless(!is_truth(kind), iterator.place)
}

/// The breach of a lower bound that is no value of the iterator's kind.
pub fn low_breach(kind: Kind, low: (u64, Place)) -> Option<Breach>
    ensures { listed_breach result ≡ low_breaches kind (placed low.0 low.1) }
{
    lost_unless(is_value(kind, false, low.0), low.1)
}

/// The breach of an upper bound above the lower one, where the number before it is no value of the
/// iterator's kind.
pub fn high_breach(kind: Kind, low: (u64, Place), high: (u64, Place)) -> Option<Breach>
    ensures { listed_breach result ≡ high_breaches kind (placed low.0 low.1) (placed high.0 high.1) }
{
    if low.0 < high.0 {
        lost_unless(is_value(kind, false, high.0 - 1), high.1)
    } else {
        None
    }
}
