//! Where an element of a memory lies.

ghost use Rattle.std.specs.Prelude.{◌≡◌, ℕ, ◌<◌, ◌≤◌, ◌-◌, ◌*◌, ◌/◌, ◌%◌, ◌^◌, ◌↔◌, IsTrue, Some, pos};
ghost use Rattle.std.specs.List.{AllByRecursion};
ghost use Rattle.dh_value.specs.Words.{IsWidth, IsWord, value_of};
ghost use Rattle.dh_extents.specs.Extents.{AreDims};
ghost use Rattle.dh_code.specs.Banks.{SpreadHasRoom, IsSpread, Spreads, index_within, spread_behind};
ghost use Rattle.dh_code.specs.Operated.{IsValidOperand, index_values, view_seen};

use crate::codes::Operand;
use crate::operands::{View, value_at};
use dh_tree::Dim;
use dh_value::{Kind, Word, number};

/// Where an element lies: its bank, its row in that bank, and its place among all elements of its
/// memory.
#[derive(Clone, Copy)]
pub struct Element {
    /// The number of the memory.
    pub memory: usize,
    /// The number of the bank in it.
    pub bank: u64,
    /// The row in that bank.
    pub row: u64,
    /// The place among all elements.
    pub position: u64,
}

/// Where an element lies within dimensions.
#[derive(Clone, Copy)]
pub struct Spread {
    /// The number of its bank.
    pub bank: u64,
    /// Its row there.
    pub row: u64,
    /// Its place among all elements.
    pub position: u64,
}

/// An index as a natural number, where it is one below a size.
pub fn index_below(index: i128, size: u64) -> Option<u64>
    ensures is { result ≡ index_within size index }
    ensures below { (n : ℕ) → result ≡ Some n → n < size }
{
    if 0 <= index && index < i128::from(size) {
        Some(index as u64)
    } else {
        None
    }
}

/// A number where it is one below a size.
fn number_below(number: u64, size: u64) -> Option<u64>
    ensures is { result ≡ index_within size (pos number) }
    ensures below { (n : ℕ) → result ≡ Some n → n < size }
{
    if number < size { Some(number) } else { None }
}

/// Whether a number has fewer than so many bits, from 1 to 64: in two's complement of so many bits,
/// whether it is not negative.
fn is_natural(bits: u64, width: u8) -> bool
    requires { IsWidth width }
    ensures { IsTrue result ↔ (bits < 2 ^ (width - 1)) }
{
    bits >> (width - 1) == 0
}

/// The index that a word is, where it is one below a size. (Most indices are not negative, and are
/// their bits.)
fn index_of(word: Word, size: u64) -> Option<u64>
    requires { IsWord word }
    ensures is { result ≡ index_within size (value_of word) }
    ensures below { (n : ℕ) → result ≡ Some n → n < size }
{
    match word.kind {
        Kind::Bool => number_below(word.bits, size),
        Kind::Unsigned(_) => number_below(word.bits, size),
        Kind::Signed(width) => {
            if is_natural(word.bits, width) {
                number_below(word.bits, size)
            } else {
                index_below(number(word), size)
            }
        }
    }
}

/// A number by one of at least 1: rounded down, and what is left. Most dimensions have one bank, and
/// a division takes long.
fn divided(number: u64, by: u64) -> (u64, u64)
    requires some { 1 ≤ by }
    ensures down { result.0 ≡ number / by }
    ensures left { result.1 ≡ number % by }
{
    if by == 1 {
        return (number, 0);
    }
    let bits = by.trailing_zeros() & 63;
    if 1 << bits == by {
        let down = number >> bits;
        return (down, number - down * by);
    }
    (number / by, number % by)
}

/// So many rows for each of those so far.
fn rows_behind(row: u64, dim: &Dim) -> u64
    requires some { 1 ≤ dim.now.banks }
    requires room { row * (dim.now.size / dim.now.banks) < 2 ^ 64 }
    ensures { result ≡ row * (dim.now.size / dim.now.banks) }
{
    if row == 0 {
        0
    } else {
        row * divided(dim.size, dim.banks).0
    }
}

/// Where an index of the next dimension leads, from where those before it led.
pub fn next_spread(spread: Spread, dim: &Dim, index: u64) -> Spread
    requires some { 1 ≤ dim.now.banks }
    requires room { SpreadHasRoom spread dim.now index }
    ensures { result ≡ spread_behind spread dim.now index }
{
    let (outer, inner) = divided(index, dim.banks);
    Spread {
        bank: spread.bank * dim.banks + inner,
        row: rows_behind(spread.row, dim) + outer,
        position: spread.position * dim.size + index,
    }
}

/// Where the element of these indices lies; None where there is none.
#[inline(always)]
pub fn locate(view: &View<'_>, dims: &[Dim], indices: &[Operand]) -> Option<Spread>
    requires dims { AreDims dims.now }
    requires operands { AllByRecursion IsValidOperand indices.now }
    ensures spreads { Spreads dims.now (index_values (view_seen view.now) indices.now) result }
    ensures within { IsSpread dims.now result }
{
    if indices.len() != dims.len() {
        return None;
    }
    let mut spread = Spread {
        bank: 0,
        row: 0,
        position: 0,
    };
    for (i, dim) in dims.iter().enumerate() {
        let Some(index) = index_of(value_at(view, &indices[i]), dim.size) else {
            return None;
        };
        spread = next_spread(spread, dim, index);
    }
    Some(spread)
}
