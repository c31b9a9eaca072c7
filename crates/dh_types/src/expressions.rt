//! The kinds of expressions.

ghost use Rattle.std.specs.Prelude.{◌≡◌, ◌&&◌};
ghost use Rattle.dh_tree.specs.Seen.{term_seen, form_seen};
ghost use Rattle.dh_tree.specs.Kinds as rules;
ghost use Rattle.dh_types.specs.Facts.{facts_seen};
ghost use Rattle.dh_types.specs.Bare.{settled, settled_form, filled_in, filled_in_form};
ghost use Rattle.dh_types.specs.InTrees.{TypesTerm, TypesTerms, FillsBareOperand, wanted_left, wanted_right};

use crate::facts::Fact;
use crate::finding::{is_bare_number, is_leaf, kind_found, leaf_kind};
use crate::operands::{left_want, right_want};
use crate::sorts::{for_numbers, keeps_bare};
use dh_tree::{Expr, ExprForm, Kind};
use dh_value::Op;

/// Gives a bare expression its kinds: its numbers take the kind that is wanted. It looks at numbers and
/// operations alone.
#[cycle(bare)]
pub fn fill(facts: &[Fact], want: Option<Kind>, term: &mut Expr)
    ensures { term_seen term.new ≡ filled_in (facts_seen facts.now) want (term_seen term.old) }
{
    fill_form(facts, want, &mut term.form);
    term.kind = kind_found(facts, want, &term.form);
}

// The kinds within a bare form, which stays where it is.
#[cycle(bare)]
#[tactic(auto, using(dh_tree::proofs::SeenTerms::terms_are))]
fn fill_form(facts: &[Fact], want: Option<Kind>, form: &mut ExprForm)
    ensures { form_seen form.new ≡ filled_in_form (facts_seen facts.now) want (form_seen form.old) }
{
    match form {
        ExprForm::Binary { op, left, right } => {
            fill(facts, left_want(*op, want, true, None), left);
            fill(facts, right_want(*op, want, true, None), right);
        }
        // no other form has parts that are bare
        ExprForm::Number { .. } => {}
        ExprForm::Truth { .. } => {}
        ExprForm::Variable { .. } => {}
        ExprForm::Access { .. } => {}
        ExprForm::Physical { .. } => {}
        ExprForm::Cast { .. } => {}
    }
}

/// Gives an expression its kinds if it is not bare, and says whether it is bare. A bare one stays as it
/// is: its numbers take the kind of its place. So each operation is looked at twice at most.
#[cycle(expressions)]
pub fn settle(facts: &[Fact], term: &mut Expr) -> bool
    ensures bare { result ≡ rules.is_bare (term_seen term.old) }
    ensures tree { term_seen term.new ≡ settled (facts_seen facts.now) (term_seen term.old) }
{
    let bare = settle_form(facts, &mut term.form);
    if !bare {
        term.kind = kind_found(facts, None, &term.form);
    }
    bare
}

// As `settle`, without a walk where it is a number or a name alone.
#[cycle(expressions)]
fn settle_part(facts: &[Fact], term: &mut Expr) -> bool
    ensures bare { result ≡ rules.is_bare (term_seen term.old) }
    ensures tree { term_seen term.new ≡ settled (facts_seen facts.now) (term_seen term.old) }
{
    if is_bare_number(&term.form) {
        return true;
    }
    if is_leaf(&term.form) {
        term.kind = leaf_kind(facts, None, &term.form);
        return false;
    }
    settle(facts, term)
}

// The kinds within a form that is not bare, and whether it is. The form stays where it is.
#[cycle(expressions)]
#[tactic(auto, using(dh_tree::proofs::SeenTerms::terms_are))]
fn settle_form(facts: &[Fact], form: &mut ExprForm) -> bool
    ensures bare { result ≡ rules.is_bare_form (form_seen form.old) }
    ensures tree { form_seen form.new ≡ settled_form (facts_seen facts.now) (form_seen form.old) }
{
    match form {
        ExprForm::Number { .. } => true,
        ExprForm::Truth { .. } => false,
        ExprForm::Variable { .. } => false,
        ExprForm::Access { indices, .. } => {
            type_terms(facts, indices);
            false
        }
        ExprForm::Physical { row, .. } => {
            type_term(facts, None, row);
            false
        }
        ExprForm::Binary { op, left, right } => {
            let bare_left = settle_part(facts, left);
            let bare_right = settle_part(facts, right);
            if is_bare(*op, bare_left, bare_right) {
                return true;
            }
            fill_operands(facts, *op, (bare_left, bare_right), left, right);
            false
        }
        ExprForm::Cast { inner, to } => {
            type_term(facts, for_numbers(Some(*to)), inner);
            false
        }
    }
}

/// Gives an expression its kinds. The numbers of a bare one take the kind that is wanted.
#[cycle(expressions)]
pub fn type_term(facts: &[Fact], want: Option<Kind>, term: &mut Expr)
    ensures { TypesTerm facts.now want term.old term.new }
{
    if is_leaf(&term.form) {
        term.kind = leaf_kind(facts, want, &term.form);
        return;
    }
    if settle(facts, term) {
        fill(facts, want, term);
    }
}

/// Gives expressions, at whose places no kind is wanted, their kinds.
#[cycle(expressions)]
pub fn type_terms(facts: &[Fact], terms: &mut Vec<Expr>)
    ensures { TypesTerms facts.now terms.old terms.new }
{
    for term in terms.iter_mut() {
        type_term(facts, None, term);
    }
}

// Whether an operation is bare, where its operands are or are not.
fn is_bare(op: Op, bare_left: bool, bare_right: bool) -> bool
    ensures { result ≡ (rules.keeps_bare op && (bare_left && bare_right)) }
{
    keeps_bare(op) && bare_left && bare_right
}

// Gives a bare operand its kinds, and leaves one that has its kinds.
fn fill_bare(facts: &[Fact], bare: bool, want: Option<Kind>, operand: &mut Expr)
    ensures { FillsBareOperand facts.now bare want operand.old operand.new }
{
    if bare {
        if is_leaf(&operand.form) {
            operand.kind = leaf_kind(facts, want, &operand.form);
        } else {
            fill(facts, want, operand);
        }
    }
}

// Gives the bare operands of an operation that is not bare their kinds, where the others have theirs.
fn fill_operands(facts: &[Fact], op: Op, bare: (bool, bool), left: &mut Expr, right: &mut Expr)
    ensures left { FillsBareOperand facts.now bare.0 (wanted_left op bare.1 right.old) left.old left.new }
    ensures right { FillsBareOperand facts.now bare.1 (wanted_right op bare.0 left.new) right.old right.new }
{
    fill_bare(facts, bare.0, left_want(op, None, bare.1, right.kind), left);
    fill_bare(
        facts,
        bare.1,
        right_want(op, None, bare.0, left.kind),
        right,
    );
}
