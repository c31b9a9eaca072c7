//! The element of its parent that an index of a view names.

ghost use Rattle.std.specs.Prelude.{◌≡◌, ℕ, ◌≤◌, ◌<◌, List, ℤ, length, option_map, Some, pos, ◌+ℤ◌, ◌*ℤ◌};
ghost use Rattle.std.specs.List.{AllByRecursion};
ghost use Rattle.dh_tree.specs.declared.viewing.ViewSort.TheVariants as sorts;
ghost use Rattle.dh_viewing.specs.Moved.{Moves, kept_number, moved_number, moved_numbers, number_within};
ghost use Rattle.dh_viewing.specs.Numbers.{numbers_in};
ghost use Rattle.dh_tree.specs.ViewElements as definitions;
ghost use Rattle.dh_tree.specs.ViewElements.{dealt_index, element_through};
ghost use Rattle.dh_tree.specs.ViewShapes.{IsViewMap};

use crate::numbers::{Index, MAX_DIMS, listed, no_numbers, with_number};
use dh_tree::{Dim, ViewMap, ViewSort};

/// Above every size.
const SIZE_BOUND: u128 = 1 << 64;

/// The factors of a view that has none.
const NO_FACTORS: [u64; MAX_DIMS] = [1; MAX_DIMS];

/// A whole number as a natural one, where it is at least 0 and below a size.
fn natural(number: i128, size: u64) -> Option<u64>
    ensures is { result ≡ number_within size number }
    ensures below { (n : ℕ) → result ≡ Some n → n < size }
{
    if 0 <= number && number < i128::from(size) {
        Some(number as u64)
    } else {
        None
    }
}

/// A natural number as a whole one, where it is below a size.
fn whole(number: u128, size: u64) -> Option<i128>
    ensures { result ≡ kept_number size (pos number) }
{
    if number < u128::from(size) {
        Some(number as i128)
    } else {
        None
    }
}

/// An index so many steps further, or back, where it is then at least 0 and below a size: the number of
/// steps is the offset times the factor, which may be more than words have room for.
fn stepped(size: u64, factor: u64, offset: i128, index: u64) -> Option<i128>
    requires { 1 ≤ factor }
    ensures { index < size → result ≡ kept_number size ((pos factor *ℤ offset) +ℤ pos index) }
{
    let steps = offset.unsigned_abs();
    if steps >= SIZE_BOUND {
        return None;
    }
    let distance = u128::from(factor) * steps;
    let index = u128::from(index);
    if offset >= 0 {
        whole(index + distance, size)
    } else if distance <= index {
        whole(index - distance, size)
    } else {
        None
    }
}

/// The same of an index that may be none of that size.
fn moved(size: u64, factor: u64, offset: i128, index: i128) -> Option<i128>
    requires { 1 ≤ factor }
    ensures { result ≡ moved_number size factor offset index }
{
    match natural(index, size) {
        Some(index) => stepped(size, factor, offset, index),
        None => None,
    }
}

/// The same of indices, each in its dimension with its factor and its offset.
fn moved_all(dims: &[Dim], factors: &[u64], offsets: &[i128], indices: &[i128]) -> Option<Index>
    requires few { length dims.now ≤ 6 }
    requires factors { AllByRecursion (λ k. 1 ≤ k) factors.now }
    requires factors_long { length factors.now ≡ length dims.now }
    requires offsets_long { length offsets.now ≡ length dims.now }
    requires indices_long { length indices.now ≡ length dims.now }
    ensures { option_map numbers_in result
        ≡ moved_numbers dims.now factors.now offsets.now indices.now }
{
    let mut index = no_numbers();
    for i in 0..dims.len() {
        match moved(dims[i].size, factors[i], offsets[i], indices[i]) {
            Some(number) => index = with_number(index, number),
            None => return None,
        }
    }
    Some(index)
}

/// Whether a whole number is an index of a dimension of this size.
fn is_index(size: u64, number: i128) -> bool
    ensures { result ≡ definitions.is_index size number }
{
    0 <= number && number < i128::from(size)
}

/// Whether these are indices of these dimensions.
fn is_inside(dims: &[Dim], indices: &[i128]) -> bool
    requires { length indices.now ≡ length dims.now }
    ensures { result ≡ definitions.is_inside dims.now indices.now }
{
    for i in 0..dims.len() {
        if !is_index(dims[i].size, indices[i]) {
            return false;
        }
    }
    true
}

/// The element of a dimension of so many banks that is element `element` of copy `copy` of its split, where
/// each copy has `share` of the banks. It is below `_size`, so that nothing overflows.
fn joined(_size: u64, banks: u64, share: u64, copy: u64, element: u64) -> u64
    requires share { 1 ≤ share }
    requires small { dealt_index banks share copy element < _size }
    ensures { result ≡ dealt_index banks share copy element }
{
    let row = element / share;
    row * banks + copy * share + element % share
}

/// The element of the parent that these indices name in a split.
fn split_through(v: &ViewMap, indices: &[i128]) -> Option<Index>
    requires map { IsViewMap v.now }
    requires sort { v.now.sort ≡ sorts.Split }
    requires indices { length indices.now ≡ length v.now.shape.dims }
    ensures { (offsets : List ℤ) → option_map numbers_in result
        ≡ element_through v.now offsets indices.now }
{
    let view = v.shape.dims.as_slice();
    let Some(copy) = natural(indices[0], view[0].size) else {
        return None;
    };
    let Some(element) = natural(indices[1], view[1].size) else {
        return None;
    };
    let parent = v.parent.dims.as_slice();
    let banks = parent[0].banks;
    let share = banks / v.by.as_slice()[0];
    let place = joined(parent[0].size, banks, share, copy, element);
    Some(with_number(no_numbers(), i128::from(place)))
}

/// The element of the parent that these indices name in a view that moves.
fn moved_through(v: &ViewMap, offsets: &[i128], indices: &[i128], factors: &[u64]) -> Option<Index>
    requires map { IsViewMap v.now }
    requires moves { Moves v.now.sort v.now.by factors.now (length v.now.parent.dims) }
    requires offsets { length offsets.now ≡ length v.now.parent.dims }
    requires indices { length indices.now ≡ length v.now.shape.dims }
    ensures { option_map numbers_in result ≡ element_through v.now offsets.now indices.now }
{
    moved_all(v.parent.dims.as_slice(), factors, offsets, indices)
}

/// The element of its parent that an index of a view names: None where the index is out of range in the
/// view, or what it names in the parent. The offsets are those before they are multiplied by the view's
/// factors, one for each dimension of the parent; what they are of a shrunk view or of a split tells
/// nothing. Offsets may be any whole numbers: nothing wraps.
pub fn through(v: &ViewMap, offset: &Index, index: &Index) -> Option<Index>
    requires map { IsViewMap v.now }
    requires offsets { offset.now.len ≡ length v.now.parent.dims }
    requires indices { index.now.len ≡ length v.now.shape.dims }
    ensures { option_map numbers_in result
        ≡ element_through v.now (numbers_in offset.now) (numbers_in index.now) }
{
    let indices = listed(index);
    match v.sort {
        ViewSort::Suffix => moved_through(v, listed(offset), indices, v.by.as_slice()),
        ViewSort::Shift => {
            let factors = &NO_FACTORS[..v.parent.dims.len()];
            moved_through(v, listed(offset), indices, factors)
        }
        ViewSort::Shrink => {
            if is_inside(v.shape.dims.as_slice(), indices) {
                Some(*index)
            } else {
                None
            }
        }
        ViewSort::Split => split_through(v, indices),
    }
}
