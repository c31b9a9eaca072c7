//! The indices of accesses.

ghost use Rattle.std.specs.Prelude.{◌≡◌, ◌*◌, ◌/◌, ◌≤◌, Some, min, option_map, slice_get};
ghost use Rattle.dh_tree.specs.Counters.{counter_in};
ghost use Rattle.dh_tree.specs.Elements as elements;
ghost use Rattle.dh_tree.specs.Indices as definitions;
ghost use Rattle.dh_tree.specs.Indices.{row_breaches, physical_bank_breaches};
ghost use Rattle.dh_tree.specs.LeastBreach.{least_of};
ghost use Rattle.dh_tree.specs.Seen.{term_seen};
ghost use Rattle.dh_shape.specs.Classified.{loops_in};
ghost use Rattle.dh_views.specs.Kept.{number_bound, body_copies_of, entry_dimensions};
ghost use Rattle.dh_views.specs.Walked.{KeepsKind, access_broken, bank_broken, dims_in, index_broken, indices_broken, is_no_row};

use crate::keeping::keep_if;
use dh_base::{Place, Rule};
use dh_shape::{IndexKind, classify};
use dh_tree::{Breach, Dim, Expr, ExprForm, MemEntry, Typed};
use dh_viewing::shape_keeps;

/// Above every number that a text has.
const NUMBER_BOUND: u128 = 1 << 64;

/// Whether a literal is no index of a dimension of this size.
fn is_beyond(size: u128, number: i128) -> bool
    ensures { result ≡ definitions.is_beyond size number }
{
    number < 0 || size <= number as u128
}

/// The copies of the body of a loop; 1 for what is no loop.
fn copies(typed: &Typed, entity: u32) -> u64
    ensures { result ≡ body_copies_of (counter_in (loops_in typed.now) (Some entity)) }
{
    match typed.counter(entity) {
        Some(counter) => counter.factor,
        None => 1,
    }
}

/// The breach of an index of this kind.
fn keep_kind(typed: &Typed, kept: &mut Option<Breach>, dim: &Dim, place: Place, kind: IndexKind)
    ensures { KeepsKind typed.now kept.old kept.new dim.now place kind }
{
    match kind {
        IndexKind::Constant(number) => {
            let is_broken = is_beyond(u128::from(dim.size), number);
            keep_if(kept, is_broken, Rule::ConstantRange, place);
        }
        IndexKind::Iterator { entity, .. } => {
            let is_broken = 1 < dim.banks && copies(typed, entity) % dim.banks != 0;
            keep_if(kept, is_broken, Rule::BankUnroll, place);
        }
        IndexKind::Dynamic => keep_if(kept, 1 < dim.banks, Rule::DynamicBank, place),
    }
}

/// The breach of an index of a dimension.
fn keep_index(typed: &Typed, kept: &mut Option<Breach>, dim: &Dim, index: &Expr)
    ensures { kept.new ≡ least_of kept.old (index_broken typed.now dim.now index.now) }
{
    keep_kind(typed, kept, dim, index.place, classify(typed, index));
}

/// Those of indices, each for its dimension.
pub(crate) fn keep_indices(typed: &Typed, kept: &mut Option<Breach>, dims: &[Dim], indices: &[Expr])
    ensures { kept.new ≡ least_of kept.old (indices_broken typed.now dims.now indices.now) }
{
    for (dim, index) in dims.iter().zip(indices.iter()) {
        keep_index(typed, kept, dim, index);
    }
}

/// The product, as far as numbers of texts go.
fn product(left: u128, right: u64) -> u128
    ensures { result ≡ min (left * right) number_bound }
{
    left.saturating_mul(u128::from(right)).min(NUMBER_BOUND)
}

/// A count times the banks of a dimension, as far as numbers of texts go.
fn times_banks(count: u128, dim: &Dim) -> u128
    ensures { result ≡ min (count * dim.now.banks) number_bound }
{
    product(count, dim.banks)
}

/// A count times the rows of a dimension, as far as numbers of texts go.
fn times_rows(count: u128, dim: &Dim) -> u128
    ensures { result ≡ min (count * (dim.now.size / dim.now.banks)) number_bound }
{
    let rows = if dim.banks == 0 {
        0
    } else {
        dim.size / dim.banks
    };
    product(count, rows)
}

/// The banks of dimensions, as far as numbers of texts go.
fn banks(dims: &[Dim]) -> u128
    ensures { result ≡ min (elements.banks_of dims.now) number_bound }
{
    let mut count = 1;
    for dim in dims {
        count = times_banks(count, dim);
    }
    count
}

/// The rows of a bank, as far as numbers of texts go.
fn rows(dims: &[Dim]) -> u128
    ensures { result ≡ min (elements.rows_of dims.now) number_bound }
{
    let mut count = 1;
    for dim in dims {
        count = times_rows(count, dim);
    }
    count
}

/// A bank that a memory of these dimensions has not.
fn keep_bank(kept: &mut Option<Breach>, dims: &[Dim], bank: u64, place: Place)
    ensures { kept.new ≡ least_of kept.old (physical_bank_breaches dims.now bank place) }
{
    let is_broken = banks(dims) <= u128::from(bank);
    keep_if(kept, is_broken, Rule::ConstantRange, place);
}

/// Whether a literal is no row of a bank.
fn is_row_beyond(dims: &[Dim], negative: bool, value: u64) -> bool
    ensures { result ≡ is_no_row dims.now negative value }
{
    (negative && value != 0) || rows(dims) <= u128::from(value)
}

/// A literal row that a bank has not.
#[tactic(auto, using(dh_tree::proofs::SeenTerms::terms_are))]
fn keep_row(kept: &mut Option<Breach>, dims: &[Dim], row: &Expr)
    ensures { kept.new ≡ least_of kept.old (row_breaches dims.now (term_seen row.now)) }
{
    match &row.form {
        ExprForm::Number { negative, value } => {
            let is_broken = is_row_beyond(dims, *negative, *value);
            keep_if(kept, is_broken, Rule::ConstantRange, row.place);
        }
        ExprForm::Truth { .. } => {}
        ExprForm::Variable { .. } => {}
        ExprForm::Access { .. } => {}
        ExprForm::Physical { .. } => {}
        ExprForm::Binary { .. } => {}
        ExprForm::Cast { .. } => {}
    }
}

/// The dimensions of an entry whose shape breaks no rule.
fn dims_of(entry: &MemEntry) -> Option<&[Dim]>
    ensures { option_map (λ d. d.now) result ≡ entry_dimensions (Some entry.now) }
{
    if shape_keeps(&entry.shape) {
        Some(entry.shape.dims.as_slice())
    } else {
        None
    }
}

/// Those of the entry of this number.
fn dims_at(entries: &[MemEntry], number: usize) -> Option<&[Dim]>
    ensures { option_map (λ d. d.now) result ≡ entry_dimensions (slice_get entries.now number) }
{
    match entries.get(number) {
        Some(entry) => dims_of(entry),
        None => None,
    }
}

/// The dimensions of what a name stands for, where its shape breaks no rule. Goes through the dimensions
/// of the memory; an access has as many indices, so that only accesses to a bank can cost more than
/// their own text: each of these goes through all dimensions of its memory.
fn kept_dims(typed: &Typed, entity: Option<u32>) -> Option<&[Dim]>
    ensures { option_map (λ d. d.now) result ≡ dims_in typed.now entity }
{
    let Some(entity) = entity else {
        return None;
    };
    let Some(number) = typed.memory_number(entity) else {
        return None;
    };
    dims_at(typed.memories().as_slice(), number)
}

/// The breaches of the indices of an access, by the entity of its name.
pub(crate) fn keep_access(
    typed: &Typed,
    kept: &mut Option<Breach>,
    of: Option<u32>,
    indices: &[Expr],
)
    ensures { kept.new ≡ least_of kept.old (access_broken typed.now of indices.now) }
{
    match kept_dims(typed, of) {
        Some(dims) => keep_indices(typed, kept, dims, indices),
        None => {}
    }
}

/// Those of the bank and the row of an access to a bank.
#[tactic(auto, using(dh_tree::proofs::Leasts::least_append))]
fn keep_in_bank(kept: &mut Option<Breach>, dims: &[Dim], bank: u64, bank_place: Place, row: &Expr)
    ensures { kept.new ≡ least_of kept.old (bank_broken (Some dims.now) bank bank_place row.now) }
{
    keep_bank(kept, dims, bank, bank_place);
    keep_row(kept, dims, row);
}

/// Those of an access to a bank, by the entity of its name.
pub(crate) fn keep_physical(
    typed: &Typed,
    kept: &mut Option<Breach>,
    of: Option<u32>,
    bank: u64,
    bank_place: Place,
    row: &Expr,
)
    ensures { kept.new ≡ least_of kept.old (bank_broken
        (dims_in typed.now of) bank bank_place row.now) }
{
    match kept_dims(typed, of) {
        Some(dims) => keep_in_bank(kept, dims, bank, bank_place, row),
        None => {}
    }
}
