//! Operations from expressions, at one path at a time: faults of an earlier path come first.

ghost use Rattle.std.specs.Prelude.{◌≡◌, IfOk, map};
ghost use Rattle.dh_tree.specs.Seen.{term_seen, terms};
ghost use Rattle.dh_meaning.specs.CoreOf.{entity_number};
ghost use Rattle.dh_expressions.specs.Evaluated.{AimsByIndices, AimsByRow, AimsThrough, EvaluatesTerm, ShowsVariable};
ghost use Rattle.dh_expressions.specs.Drafted.{Gives, word_shown};
ghost use Rattle.dh_expressions.specs.MadeTerms.{MadeIndices, MadeNext, MadeRow, MadeTerm, MadeThrough};
ghost use Rattle.dh_expressions.specs.MadeValues.{MadeConverted, MadeExtended, MadeHeld, MadeLowestBit, MadeOperation, MadeVariable};
ghost use Rattle.dh_expressions.specs.Reaching.{ReadsNextElement};
ghost use Rattle.dh_expressions.specs.Shown.{applied_shown, conversion_shown, extended_shown, held_shown, is_kept, lowest_bit};

use crate::accesses::Accesses;
use crate::drafts::{Draft, push_compute, push_constant, push_convert};
use crate::elements::{Aim, no_steps, push_read};
use crate::iterators::push_iterator;
use crate::kinds::is_read;
use crate::naming::memory_of;
use crate::passages::push_way;
use crate::scenes::{Lane, Scene};
use crate::variables::{push_shown, slot_at};
use dh_base::{Items, NoMemory};
use dh_code::{entity_of, extension, is_same, kind_found, literal, place_of, truth};
use dh_tree::{Expr, ExprForm, Kind, Ref};
use dh_value::Op;

/// A value, and the number of the next access behind its expression.
#[derive(Clone, Copy)]
pub struct Valued {
    /// The number of the operation that gives it.
    pub value: u64,
    /// The number of the next access.
    pub next: u32,
}

/// Adds what a variable holds at a path, as a value of a kind.
pub fn push_variable(
    scene: &Scene<'_>,
    lane: &Lane<'_>,
    current: &[Option<u64>],
    draft: &mut Draft,
    of: &Ref,
    kind: Kind,
) -> Result<u64, NoMemory>
    ensures means { IfOk result (λ n. ShowsVariable scene.now lane.now current.now draft.old
        draft.new n (entity_number of.now.entity) kind) }
    ensures made { IfOk result (λ n. MadeVariable scene.now lane.now current.now (entity_number
        of.now.entity) kind draft.old draft.new n) }
{
    let held = place_of(scene.held, of);
    match scene.program.counter(entity_of(of)) {
        Some(counter) => push_iterator(draft, lane, counter, held, kind),
        None => push_shown(draft, current, slot_at(held, lane)),
    }
}

/// Adds a value in an integer kind: nothing is done where it is a word of that kind already.
pub fn push_converted(draft: &mut Draft, from: &Expr, value: u64, to: Kind) -> Result<u64, NoMemory>
    ensures means { IfOk result (λ v. Gives draft.old draft.new v (λ x. conversion_shown (term_seen
        from.now) to (word_shown x value))) }
    ensures made { IfOk result (λ v. MadeConverted (is_kept (term_seen from.now) to) to value
        draft.old draft.new v) }
{
    if is_same(kind_found(from.kind), to) && !is_read(from) {
        return Ok(value);
    }
    push_convert(draft, value, to)
}

/// Adds an operand, extended to an integer kind; as it is for Bool.
pub fn push_extended(draft: &mut Draft, from: &Expr, value: u64, to: Kind) -> Result<u64, NoMemory>
    ensures means { IfOk result (λ v. Gives draft.old draft.new v (λ x. extended_shown (term_seen
        from.now) to (word_shown x value))) }
    ensures made { IfOk result (λ v. MadeExtended (term_seen from.now) to value draft.old draft.new
        v) }
{
    match to {
        Kind::Bool => Ok(value),
        Kind::Unsigned(_) => push_converted(draft, from, value, to),
        Kind::Signed(_) => push_converted(draft, from, value, to),
    }
}

/// Adds a truth that a memory held, as a word: its lowest bit.
fn push_lowest_bit(draft: &mut Draft, value: u64) -> Result<u64, NoMemory>
    ensures means { IfOk result (λ v. Gives draft.old draft.new v (λ x. lowest_bit (word_shown x
        value))) }
    ensures made { IfOk result (λ v. MadeLowestBit value draft.old draft.new v) }
{
    let bit = push_convert(draft, value, Kind::Unsigned(1))?;
    let one = push_constant(draft, literal(Kind::Unsigned(1), false, 1))?;
    push_compute(draft, Op::Eq, bit, one)
}

/// Adds a value as a variable or a memory of a kind holds it.
pub fn push_held(draft: &mut Draft, from: &Expr, value: u64, to: Kind) -> Result<u64, NoMemory>
    ensures means { IfOk result (λ v. Gives draft.old draft.new v (λ x. held_shown (term_seen
        from.now) to (word_shown x value))) }
    ensures made { IfOk result (λ v. MadeHeld (term_seen from.now) to value draft.old draft.new v) }
{
    match to {
        Kind::Bool => {
            if is_read(from) {
                push_lowest_bit(draft, value)
            } else {
                Ok(value)
            }
        }
        Kind::Unsigned(_) => push_converted(draft, from, value, to),
        Kind::Signed(_) => push_converted(draft, from, value, to),
    }
}

/// Adds an operator on the values of two expressions.
pub fn push_operation(
    draft: &mut Draft,
    op: Op,
    left: &Expr,
    right: &Expr,
    a: u64,
    b: u64,
) -> Result<u64, NoMemory>
    ensures means { IfOk result (λ v. Gives draft.old draft.new v (λ x. applied_shown op (term_seen
        left.now) (term_seen right.now) (word_shown x a) (word_shown x b))) }
    ensures made { IfOk result (λ v. MadeOperation op (term_seen left.now) (term_seen right.now) a b
        draft.old draft.new v) }
{
    let to = extension(op, kind_found(left.kind), kind_found(right.kind));
    let x = push_extended(draft, left, a, to)?;
    let y = push_extended(draft, right, b, to)?;
    push_compute(draft, op, x, y)
}

/// Adds the reading of the element that an access of a name aims at, and counts the access.
fn push_element(
    scene: &Scene<'_>,
    lane: &Lane<'_>,
    accesses: &mut Accesses,
    draft: &mut Draft,
    access: &Expr,
    of: &Ref,
    aim: &Aim,
) -> Result<Valued, NoMemory>
    ensures means { IfOk result (λ r. ReadsNextElement scene.now lane.now draft.old draft.new accesses.old
        accesses.new (term_seen access.now) of.now aim.now r) }
    ensures made { IfOk result (λ r. MadeNext scene.now lane.now (term_seen access.now) of.now
        aim.now draft.old draft.new accesses.old accesses.new r) }
{
    let memory = memory_of(scene, of);
    let next = aim.number.saturating_add(1);
    let value = push_read(scene, lane, accesses, draft, access, memory, aim)?;
    Ok(Valued { value, next })
}

/// Adds the operations of an expression at a path, whose accesses are numbered from `first` on.
#[cycle(terms)]
#[tactic(auto, using(dh_tree::proofs::SeenTerms::terms_are))]
pub fn push_term(
    scene: &Scene<'_>,
    lane: &Lane<'_>,
    current: &[Option<u64>],
    accesses: &mut Accesses,
    draft: &mut Draft,
    first: u32,
    value: &Expr,
) -> Result<Valued, NoMemory>
    ensures means { IfOk result (λ r. EvaluatesTerm scene.now lane.now current.now draft.old
        draft.new accesses.old accesses.new first (term_seen value.now) r) }
    ensures made { IfOk result (λ r. MadeTerm scene.now lane.now current.now (term_seen value.now)
        draft.old draft.new accesses.old accesses.new first r.next r.value) }
{
    let kind = kind_found(value.kind);
    match &value.form {
        ExprForm::Number { negative, value } => {
            let value = push_constant(draft, literal(kind, *negative, *value))?;
            Ok(Valued { value, next: first })
        }
        ExprForm::Truth { value } => {
            let value = push_constant(draft, truth(*value))?;
            Ok(Valued { value, next: first })
        }
        ExprForm::Variable { of } => {
            let value = push_variable(scene, lane, current, draft, of, kind)?;
            Ok(Valued { value, next: first })
        }
        ExprForm::Access { of, indices } => {
            let indices = indices.as_slice();
            let mut aim = push_indices(scene, lane, current, accesses, draft, first, indices)?;
            push_way(scene, lane, current, draft, of, &mut aim)?;
            push_element(scene, lane, accesses, draft, value, of, &aim)
        }
        ExprForm::Physical { of, row, .. } => {
            let aim = push_row(scene, lane, current, accesses, draft, first, row)?;
            push_element(scene, lane, accesses, draft, value, of, &aim)
        }
        ExprForm::Binary { op, left, right } => {
            let left: &Expr = left;
            let right: &Expr = right;
            let a = push_term(scene, lane, current, accesses, draft, first, left)?;
            let b = push_term(scene, lane, current, accesses, draft, a.next, right)?;
            let value = push_operation(draft, *op, left, right, a.value, b.value)?;
            let next = b.next;
            Ok(Valued { value, next })
        }
        ExprForm::Cast { inner, to } => {
            let inner: &Expr = inner;
            let a = push_term(scene, lane, current, accesses, draft, first, inner)?;
            let value = push_converted(draft, inner, a.value, *to)?;
            let next = a.next;
            Ok(Valued { value, next })
        }
    }
}

/// Adds the operations of indices at a path, from the left.
#[cycle(terms)]
pub fn push_indices(
    scene: &Scene<'_>,
    lane: &Lane<'_>,
    current: &[Option<u64>],
    accesses: &mut Accesses,
    draft: &mut Draft,
    first: u32,
    indices: &[Expr],
) -> Result<Aim, NoMemory>
    ensures means { IfOk result (λ aim. AimsByIndices scene.now lane.now current.now draft.old
        draft.new accesses.old accesses.new first (terms (map term_seen indices.now)) aim) }
    ensures made { IfOk result (λ aim. MadeIndices scene.now lane.now current.now (terms (map
        term_seen indices.now)) draft.old draft.new accesses.old accesses.new first aim) }
{
    let mut values = Items::new(scene.alloc);
    let mut number = first;
    for index in indices {
        let valued = push_term(scene, lane, current, accesses, draft, number, index)?;
        values.push(valued.value)?;
        number = valued.next;
    }
    let steps = no_steps(scene.alloc);
    Ok(Aim {
        indices: values,
        steps,
        row: None,
        number,
    })
}

/// Adds the operations of the row of a bank at a path.
#[cycle(terms)]
pub fn push_row(
    scene: &Scene<'_>,
    lane: &Lane<'_>,
    current: &[Option<u64>],
    accesses: &mut Accesses,
    draft: &mut Draft,
    first: u32,
    row: &Expr,
) -> Result<Aim, NoMemory>
    ensures means { IfOk result (λ aim. AimsByRow scene.now lane.now current.now draft.old
        draft.new accesses.old accesses.new first (term_seen row.now) aim) }
    ensures made { IfOk result (λ aim. MadeRow scene.now lane.now current.now (term_seen row.now)
        draft.old draft.new accesses.old accesses.new first aim) }
{
    let valued = push_term(scene, lane, current, accesses, draft, first, row)?;
    let steps = no_steps(scene.alloc);
    Ok(Aim {
        indices: Items::new(scene.alloc),
        steps,
        row: Some(valued.value),
        number: valued.next,
    })
}

/// Adds the operations of indices at a path, and behind them what the variables hold that keep the
/// offsets on the way of what a name stands for.
pub fn push_aim(
    scene: &Scene<'_>,
    lane: &Lane<'_>,
    current: &[Option<u64>],
    accesses: &mut Accesses,
    draft: &mut Draft,
    first: u32,
    of: &Ref,
    indices: &[Expr],
) -> Result<Aim, NoMemory>
    ensures means { IfOk result (λ aim. AimsThrough scene.now lane.now current.now draft.old
        draft.new accesses.old accesses.new first of.now (terms (map term_seen indices.now)) aim) }
    ensures made { IfOk result (λ aim. MadeThrough scene.now lane.now current.now of.now (terms
        (map term_seen indices.now)) draft.old draft.new accesses.old accesses.new first aim) }
{
    let mut aim = push_indices(scene, lane, current, accesses, draft, first, indices)?;
    push_way(scene, lane, current, draft, of, &mut aim)?;
    Ok(aim)
}
