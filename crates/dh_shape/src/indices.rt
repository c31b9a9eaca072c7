//! What the indices of accesses are.

ghost use Rattle.std.specs.Prelude.{◌≡◌, ℤ, pos, ◌+ℤ◌};
ghost use Rattle.dh_value.specs.declared.operators.Op.TheVariants as op;
ghost use Rattle.dh_tree.specs.Indices as definitions;
ghost use Rattle.dh_tree.specs.Seen.{form_seen};
ghost use Rattle.dh_shape.specs.Classified as answers;
ghost use Rattle.dh_shape.specs.Classified.{IsCountedIndex, IsKindOf, IsMoved, IsSum, literal_of, named_entity_of, literal_number};

use dh_tree::{Counter, Expr, ExprForm, Kind, Typed};
use dh_value::{Op, fits};

/// What an index is, its unroll factor left aside.
#[derive(Clone, Copy, Debug, PartialEq, Eq)]
pub enum IndexKind {
    /// A literal with its sign, from -(2^64 - 1) to 2^64 - 1.
    Constant(i128),
    /// An iterator with a constant added, each of whose values is at least 0 and a value of the
    /// index's kind.
    Iterator {
        /// The number of the iterator's entity.
        entity: u32,
        /// The constant, from -(2^64 - 1) to 2^64 - 1; 0 for the iterator alone.
        offset: i128,
    },
    /// Another index.
    Dynamic,
}

/// A number with its sign.
#[derive(Clone, Copy)]
struct Offset {
    negative: bool,
    value: u64,
}

/// A number of 64 bits and another with a sign, added.
fn sum_of(number: u64, literal: Offset) -> i128
    ensures { result ≡ pos number +ℤ literal_number literal }
{
    let number = i128::from(number);
    let value = i128::from(literal.value);
    if literal.negative {
        number - value
    } else {
        number + value
    }
}

/// The number of a literal.
fn number_of(literal: Offset) -> i128
    ensures { result ≡ literal_number literal }
{
    let value = i128::from(literal.value);
    if literal.negative { -value } else { value }
}

/// Whether a number is at least 0 and a value of the kind.
fn fits_kind(kind: Option<Kind>, number: i128) -> bool
    ensures { result ≡ definitions.fits_kind kind number }
{
    match kind {
        Some(kind) => number >= 0 && fits(kind, number),
        None => false,
    }
}

/// Whether every value of an iterator with a literal added is at least 0 and a value of the kind.
fn all_fit(kind: Option<Kind>, counter: Counter, literal: Offset) -> bool
    ensures { result ≡ definitions.all_fit kind counter (literal_number literal) }
{
    counter.high <= counter.low
        || (fits_kind(kind, sum_of(counter.low, literal))
            && fits_kind(kind, sum_of(counter.high - 1, literal)))
}

/// What a name with a literal added is.
fn counted(typed: &Typed, kind: Option<Kind>, entity: Option<u32>, literal: Offset) -> IndexKind
    ensures { IsCountedIndex typed.now kind entity literal result }
{
    let Some(entity) = entity else {
        return IndexKind::Dynamic;
    };
    match typed.counter(entity) {
        Some(counter) if all_fit(kind, counter, literal) => IndexKind::Iterator {
            entity,
            offset: number_of(literal),
        },
        _ => IndexKind::Dynamic,
    }
}

/// The literal that an expression is, if it is one.
#[tactic(auto, using(dh_tree::proofs::SeenTerms::terms_are))]
fn literal(term: &Expr) -> Option<Offset>
    ensures { result ≡ literal_of (form_seen term.now.form) }
{
    match &term.form {
        ExprForm::Number { negative, value } => Some(Offset {
            negative: *negative,
            value: *value,
        }),
        ExprForm::Truth { .. } => None,
        ExprForm::Variable { .. } => None,
        ExprForm::Access { .. } => None,
        ExprForm::Physical { .. } => None,
        ExprForm::Binary { .. } => None,
        ExprForm::Cast { .. } => None,
    }
}

/// The entity of the name that an expression is, if it is one.
#[tactic(auto, using(dh_tree::proofs::SeenTerms::terms_are))]
fn name(term: &Expr) -> Option<Option<u32>>
    ensures { result ≡ named_entity_of (form_seen term.now.form) }
{
    match &term.form {
        ExprForm::Variable { of } => Some(of.entity),
        ExprForm::Number { .. } => None,
        ExprForm::Truth { .. } => None,
        ExprForm::Access { .. } => None,
        ExprForm::Physical { .. } => None,
        ExprForm::Binary { .. } => None,
        ExprForm::Cast { .. } => None,
    }
}

/// What a name with a literal added is, where these are a name and a literal.
fn moved(
    typed: &Typed,
    kind: Option<Kind>,
    name: Option<Option<u32>>,
    literal: Option<Offset>,
) -> IndexKind
    ensures { IsMoved typed.now kind name literal result }
{
    match literal {
        Some(literal) => match name {
            Some(entity) => counted(typed, kind, entity, literal),
            None => IndexKind::Dynamic,
        },
        None => IndexKind::Dynamic,
    }
}

/// What a sum is.
fn added(typed: &Typed, kind: Option<Kind>, left: &Expr, right: &Expr) -> IndexKind
    ensures { IsSum typed.now kind op.Add left.now right.now result }
{
    let named = name(left);
    if named.is_some() {
        moved(typed, kind, named, literal(right))
    } else {
        moved(typed, kind, name(right), literal(left))
    }
}

/// A literal with the other sign.
fn opposite(literal: Option<Offset>) -> Option<Offset>
    ensures { result ≡ answers.opposite literal }
{
    match literal {
        Some(literal) => Some(Offset {
            negative: !literal.negative,
            value: literal.value,
        }),
        None => None,
    }
}

/// What a difference is.
fn taken(typed: &Typed, kind: Option<Kind>, left: &Expr, right: &Expr) -> IndexKind
    ensures { IsSum typed.now kind op.Sub left.now right.now result }
{
    moved(typed, kind, name(left), opposite(literal(right)))
}

/// What an operation is.
fn sum(typed: &Typed, kind: Option<Kind>, op: Op, left: &Expr, right: &Expr) -> IndexKind
    ensures { IsSum typed.now kind op left.now right.now result }
{
    match op {
        Op::Add => added(typed, kind, left, right),
        Op::Sub => taken(typed, kind, left, right),
        Op::Mul
        | Op::And
        | Op::Or
        | Op::Xor
        | Op::Shl
        | Op::Shr
        | Op::Lt
        | Op::Gt
        | Op::Le
        | Op::Ge
        | Op::Eq
        | Op::Ne
        | Op::Both
        | Op::Either => IndexKind::Dynamic,
    }
}

/// What an index is: a literal; an iterator, alone or with a literal added or taken away, all of whose
/// values are at least 0 and values of the index's kind; or another.
#[tactic(auto, using(dh_tree::proofs::SeenTerms::terms_are))]
pub fn classify(typed: &Typed, index: &Expr) -> IndexKind
    ensures { IsKindOf typed.now index.now result }
{
    match &index.form {
        ExprForm::Number { negative, value } => IndexKind::Constant(number_of(Offset {
            negative: *negative,
            value: *value,
        })),
        ExprForm::Variable { of } => {
            let nothing = Offset {
                negative: false,
                value: 0,
            };
            counted(typed, index.kind, of.entity, nothing)
        }
        ExprForm::Binary { op, left, right } => sum(typed, index.kind, *op, left, right),
        ExprForm::Truth { .. } => IndexKind::Dynamic,
        ExprForm::Access { .. } => IndexKind::Dynamic,
        ExprForm::Physical { .. } => IndexKind::Dynamic,
        ExprForm::Cast { .. } => IndexKind::Dynamic,
    }
}
