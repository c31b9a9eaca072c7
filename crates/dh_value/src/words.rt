//! Words: bits of a kind, and the whole numbers that they stand for.

ghost use Rattle.std.specs.Prelude.{◌≡◌, ◌-◌, ◌%◌, ◌^◌, ◌<◌, ◌≤◌, ◌↔◌, IsTrue, pos, int_lt};
ghost use Rattle.dh_value.specs.Words.{IsKind, IsInteger, IsWord, IsValue, value_of, residue, width_of, with_bits, word_of};

use crate::bits::{is_below, is_high, low, mask};
use crate::kinds::{Kind, width};

/// A value of a kind. Contracts say `IsWord` where the kind has from 1 to 64 bits and no bit from
/// its width upwards is set.
#[derive(Clone, Copy, PartialEq, Eq)]
pub struct Word {
    /// What it is a value of.
    pub kind: Kind,
    /// The value: 0 for false and 1 for true, a negative number in two's complement.
    pub bits: u64,
}

/// The value of a word as a whole number. False is 0 and true is 1.
pub fn number(a: Word) -> i128
    requires { IsWord a }
    ensures { result ≡ value_of a }
{
    let number = i128::from(a.bits);
    if is_negative(a) {
        number - (1 << width(a.kind))
    } else {
        number
    }
}

/// Whether the value of a word is below 0.
pub fn is_negative(a: Word) -> bool
    requires { IsWord a }
    ensures { result ≡ int_lt (value_of a) (pos 0) }
{
    match a.kind {
        Kind::Bool | Kind::Unsigned(_) => false,
        Kind::Signed(width) => is_high(a.bits, width),
    }
}

/// Whether a number is a value of an integer kind. False for Bool.
pub fn fits(kind: Kind, n: i128) -> bool
    ensures { IsTrue result ↔ IsValue kind n }
{
    match kind {
        Kind::Bool => false,
        Kind::Unsigned(width) => n >= 0 && is_below(n as u128, width),
        Kind::Signed(width) => {
            // -n - 1 has the bits that n has not
            let size = if n < 0 { !n } else { n };
            is_below(size as u128, width.saturating_sub(1))
        }
    }
}

/// The word of an integer kind of 1 to 64 bits whose value is that of `a`, modulo 2^width.
pub fn cast(a: Word, to: Kind) -> Word
    requires word { IsWord a }
    requires to { IsInteger to }
    ensures { result ≡ word_of to (value_of a) }
{
    truncated(to, extended(a))
}

/// The word of a kind of 1 to 64 bits that has the lowest of these bits.
pub fn truncated(kind: Kind, bits: u64) -> Word
    requires { IsKind kind }
    ensures { result ≡ with_bits kind (bits % 2 ^ width_of kind) }
{
    Word {
        kind,
        bits: low(bits, width(kind)),
    }
}

// The value of a word, modulo 2^64: a negative one has every bit from its width upwards set.
fn extended(a: Word) -> u64
    requires { IsWord a }
    ensures { result ≡ residue (2 ^ 64) (value_of a) }
{
    if is_negative(a) {
        a.bits | !mask(width(a.kind))
    } else {
        a.bits
    }
}
