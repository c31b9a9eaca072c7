//! Constants of the plan, and the element that constants name.

ghost use Rattle.std.specs.Prelude.{◌≡◌, ◌≤◌, ◌-◌, ◌^◌, None, nat_lt, slice_get};
ghost use Rattle.dh_value.specs.Words.{signed};
ghost use Rattle.dh_address.specs.LiteralPlaces.{below_size, constant_in, literal_at, literal_places, natural, whole_of_word, whole_at};

use crate::numbers::{quotient, remainder};
use crate::operands::BlockValue;
use dh_plan::{Operation, OperationForm};
use dh_tree::Dim;
use dh_value::{Kind, Word};

/// A row of a bank, by their numbers.
#[derive(Clone, Copy)]
pub struct LiteralPlace {
    /// The row.
    pub row: u64,
    /// The bank.
    pub bank: u64,
}

/// Whether a number is one of so many bits.
fn has_bits(number: u64, bits: u8) -> bool
    ensures { result ≡ nat_lt number (2 ^ bits) }
{
    bits >= 64 || number < 1u64 << bits
}

/// A word's value, if it is a number from 0 on.
fn natural_of(word: Word) -> Option<u64>
    ensures { result ≡ natural word }
{
    match word.kind {
        Kind::Bool => None,
        Kind::Unsigned(_) => Some(word.bits),
        Kind::Signed(width) => {
            if has_bits(word.bits, width.saturating_sub(1)) {
                Some(word.bits)
            } else {
                None
            }
        }
    }
}

/// The value of bits in two's complement.
fn signed_of(bits: u64, width: u8) -> i128
    requires { width ≤ 64 }
    ensures { result ≡ signed width bits }
{
    let number = i128::from(bits);
    if has_bits(bits, width.saturating_sub(1)) {
        number
    } else {
        number - (1 << width)
    }
}

/// A word's value, of whatever sign, if it is a number.
fn whole_of(word: Word) -> Option<i128>
    ensures { result ≡ whole_of_word word }
{
    match word.kind {
        Kind::Bool => None,
        Kind::Unsigned(_) => Some(i128::from(word.bits)),
        Kind::Signed(width) => {
            if width <= 64 {
                Some(signed_of(word.bits, width))
            } else {
                None
            }
        }
    }
}

/// The word of a constant without a guard at this place of a block.
fn constant_in(operations: &[Operation], place: usize) -> Option<Word>
    ensures { result ≡ constant_in (slice_get operations.now place) }
{
    match operations.get(place) {
        Some(operation) => match operation.guard {
            Some(_) => None,
            None => match &operation.form {
                OperationForm::Constant { word } => Some(*word),
                _ => None,
            },
        },
        None => None,
    }
}

/// The value of a constant without a guard at this place of a block, if it is one from 0 on.
pub fn constant_at(operations: &[Operation], place: usize) -> Option<u64>
    ensures { result ≡ literal_at operations.now place }
{
    match constant_in(operations, place) {
        Some(word) => natural_of(word),
        None => None,
    }
}

/// The value of a constant without a guard at this place of a block, of whatever sign.
pub fn whole_at(operations: &[Operation], place: usize) -> Option<i128>
    ensures { result ≡ whole_at operations.now place }
{
    match constant_in(operations, place) {
        Some(word) => whole_of(word),
        None => None,
    }
}

/// A constant below a size.
pub fn known_below(literal: Option<u64>, size: u64) -> Option<u64>
    ensures { result ≡ below_size literal size }
{
    match literal {
        Some(number) => { if number < size { Some(number) } else { None } }
        None => None,
    }
}

/// Row and bank of the element of these indices, if all are constants and in range. Numbers wrap.
pub fn constant_place(dims: &[Dim], indices: &[BlockValue]) -> Option<LiteralPlace>
    ensures { result ≡ literal_places dims.now indices.now 0 0 }
{
    let mut row = 0u64;
    let mut bank = 0u64;
    for i in 0..dims.len().min(indices.len()) {
        let dim = dims[i];
        let Some(index) = known_below(indices[i].literal, dim.size) else {
            return None;
        };
        row = row
            .wrapping_mul(quotient(dim.size, dim.banks))
            .wrapping_add(quotient(index, dim.banks));
        bank = bank
            .wrapping_mul(dim.banks)
            .wrapping_add(remainder(index, dim.banks));
    }
    Some(LiteralPlace { row, bank })
}
