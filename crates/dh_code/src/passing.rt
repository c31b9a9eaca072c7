//! Where the element of indices lies, through the views on the way to its memory.

ghost use Rattle.std.specs.Prelude.{◌≡◌, ◌≤◌, length, take, drop};
ghost use Rattle.std.specs.List.{AllByRecursion};
ghost use Rattle.dh_tree.specs.ViewElements.{offsets_needed};
ghost use Rattle.dh_tree.specs.ViewShapes.{IsViewMap};
ghost use Rattle.dh_extents.specs.Extents.{AreDims};
ghost use Rattle.dh_meaning.specs.Effects.{indices_through};
ghost use Rattle.dh_viewing.specs.Numbers.{numbers_in};
ghost use Rattle.dh_ways.specs.Leading.{StepsLead, next_dims, offsets_on};
ghost use Rattle.dh_code.specs.Banks.{IsSpread, Spreads};
ghost use Rattle.dh_code.specs.Operated.{IsValidOperand, index_values, view_seen};
ghost use Rattle.dh_code.specs.Passing.{LeadAlike, SpreadsBehind, StepsFit, steps_of};
ghost use Rattle.dh_code.specs.Passed.{PassesTo};

use crate::codes::Operand;
use crate::operands::{View, value_at};
use crate::spots::{Spread, index_below, next_spread};
use dh_tree::{Dim, ViewMap, ViewSort};
use dh_value::number;
use dh_viewing::{Index, no_numbers, through, with_number};

/// So many numbers: the same where they are as many already.
fn trimmed(numbers: Index, count: usize) -> Index
    requires { count ≤ 6 }
    ensures numbers { length (numbers_in numbers) ≡ count
        → numbers_in result ≡ numbers_in numbers }
    ensures long { result.len ≡ count }
{
    let at = numbers.at;
    Index {
        len: count as u8,
        at,
    }
}

/// They as a list, which is as long as they are many.
fn listed(numbers: &Index) -> &[i128]
    requires { numbers.now.len ≤ 6 }
    ensures value { result.now ≡ numbers_in numbers.now }
    ensures long { length result.now ≡ numbers.now.len }
{
    &numbers.at[..numbers.len as usize]
}

/// The values of operands, as whole numbers.
fn numbers_of(view: &View<'_>, operands: &[Operand]) -> Index
    requires operands { AllByRecursion IsValidOperand operands.now }
    requires few { length operands.now ≤ 6 }
    ensures values { numbers_in result ≡ index_values (view_seen view.now) operands.now }
    ensures long { result.len ≡ length operands.now }
{
    let mut numbers = no_numbers();
    for operand in operands {
        numbers = with_number(numbers, number(value_at(view, operand)));
    }
    numbers
}

/// The first so many operands.
fn front(operands: &[Operand], count: usize) -> &[Operand]
    requires { count ≤ length operands.now }
    ensures { result.now ≡ take count operands.now }
{
    &operands[..count]
}

/// Those behind so many.
fn behind(operands: &[Operand], count: usize) -> &[Operand]
    requires { count ≤ length operands.now }
    ensures { result.now ≡ drop count operands.now }
{
    &operands[count..]
}

/// How many offsets a view takes.
pub fn offsets_taken(link: &ViewMap) -> usize
    ensures { result ≡ offsets_needed link.now.sort link.now.parent.dims }
{
    match link.sort {
        ViewSort::Shrink => 0,
        ViewSort::Split => 0,
        ViewSort::Suffix => link.parent.dims.len(),
        ViewSort::Shift => link.parent.dims.len(),
    }
}

/// The offsets of a view; of one that does not move numbers that tell nothing.
fn offset_of(view: &View<'_>, link: &ViewMap, own: &[Operand]) -> Index
    requires map { IsViewMap link.now }
    requires operands { AllByRecursion IsValidOperand own.now }
    requires own { length own.now ≡ offsets_needed link.now.sort link.now.parent.dims }
    ensures through { LeadAlike link.now
        (numbers_in result) (index_values (view_seen view.now) own.now) }
    ensures long { result.len ≡ length link.now.parent.dims }
{
    match link.sort {
        ViewSort::Shrink => trimmed(no_numbers(), link.parent.dims.len()),
        ViewSort::Split => trimmed(no_numbers(), link.parent.dims.len()),
        ViewSort::Suffix => numbers_of(view, own),
        ViewSort::Shift => numbers_of(view, own),
    }
}

/// The indices of the memory that indices of the first of these views name; None where they are out
/// of range in one of the views, or in what it is a view of. The memory has these dimensions.
fn pass(
    view: &View<'_>,
    _dims: &[Dim],
    links: &[ViewMap],
    named: Index,
    offsets: &[Operand],
) -> Option<Index>
    requires lead { StepsLead (steps_of links.now) _dims.now }
    requires named { named.len ≡ length (next_dims (steps_of links.now) _dims.now) }
    requires offsets { length offsets.now ≡ offsets_on (steps_of links.now) }
    requires operands { AllByRecursion IsValidOperand offsets.now }
    ensures { PassesTo _dims.now (indices_through (steps_of links.now) (numbers_in named)
        (index_values (view_seen view.now) offsets.now)) result }
{
    let mut index = named;
    let mut rest = offsets;
    for link in links {
        let count = offsets_taken(link);
        let own = front(rest, count);
        let offset = offset_of(view, link, own);
        let Some(next) = through(link, &offset, &index) else {
            return None;
        };
        let most = link.parent.dims.len();
        index = trimmed(next, most);
        rest = behind(rest, count);
    }
    Some(index)
}

/// Where the element of these indices lies; None where there is none.
fn locate_index(dims: &[Dim], index: &Index) -> Option<Spread>
    requires dims { AreDims dims.now }
    requires few { length dims.now ≤ 6 }
    requires long { index.now.len ≡ length dims.now }
    ensures spreads { Spreads dims.now (numbers_in index.now) result }
    ensures within { IsSpread dims.now result }
{
    let numbers = listed(index);
    let mut spread = Spread {
        bank: 0,
        row: 0,
        position: 0,
    };
    for (i, dim) in dims.iter().enumerate() {
        let Some(number) = index_below(numbers[i], dim.size) else {
            return None;
        };
        spread = next_spread(spread, dim, number);
    }
    Some(spread)
}

/// Where the element lies that indices of the first of these views name: they are the first so many
/// operands, and the others are the offsets of the views. None where there is none.
pub fn locate_through(
    view: &View<'_>,
    dims: &[Dim],
    links: &[ViewMap],
    count: usize,
    operands: &[Operand],
) -> Option<Spread>
    requires dims { AreDims dims.now }
    requires few { length dims.now ≤ 6 }
    requires fits { StepsFit dims.now (steps_of links.now) count (length operands.now) }
    requires operands { AllByRecursion IsValidOperand operands.now }
    ensures spreads { SpreadsBehind dims.now (indices_through (steps_of links.now)
        (take count (index_values (view_seen view.now) operands.now))
        (drop count (index_values (view_seen view.now) operands.now))) result }
    ensures within { IsSpread dims.now result }
{
    let indices = front(operands, count);
    let offsets = behind(operands, count);
    let named = numbers_of(view, indices);
    match pass(view, dims, links, named, offsets) {
        Some(index) => locate_index(dims, &index),
        None => None,
    }
}
