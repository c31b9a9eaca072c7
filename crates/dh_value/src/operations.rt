//! The operations on two words.

ghost use Rattle.std.specs.Prelude.{◌≡◌, ◌/◌, ◌^◌, pos, ◌+ℤ◌, ◌-ℤ◌, ◌*ℤ◌};
ghost use Rattle.std.specs.Int.{int_div_euclid};
ghost use Rattle.dh_value.specs.Operations.{AreIntegers, AreAlike, Suits, binary_of, truth as truth_of, is_true as truth_in, are_equal};
ghost use Rattle.dh_value.specs.Words.{IsWord, value_of, with_bits, word_of};

use crate::bits::mask;
use crate::kinds::{Kind, width};
use crate::operators::Op;
use crate::words::{Word, is_negative, number, truncated};

/// The word that the operation gives. The kinds of the operands are those that `Op` says.
pub fn binary(op: Op, a: Word, b: Word) -> Word
    requires left { IsWord a }
    requires right { IsWord b }
    requires suits { Suits op a.kind b.kind }
    ensures { result ≡ binary_of op a b }
{
    match op {
        Op::Add => sum(a, b),
        Op::Sub => difference(a, b),
        Op::Mul => product(a, b),
        Op::And => of_kind(a, a.bits & b.bits),
        Op::Or => of_kind(a, a.bits | b.bits),
        Op::Xor => of_kind(a, a.bits ^ b.bits),
        Op::Shl => shifted_left(a, b.bits),
        Op::Shr => shifted_right(a, b.bits),
        Op::Lt => truth(number(a) < number(b)),
        Op::Gt => truth(number(b) < number(a)),
        Op::Le => truth(number(a) <= number(b)),
        Op::Ge => truth(number(b) <= number(a)),
        Op::Eq => truth(is_equal(a, b)),
        Op::Ne => truth(!is_equal(a, b)),
        Op::Both => truth(is_true(a) && is_true(b)),
        Op::Either => truth(is_true(a) || is_true(b)),
    }
}

// A word of the same kind.
fn of_kind(a: Word, bits: u64) -> Word
    ensures { result ≡ with_bits a.kind bits }
{
    Word { bits, ..a }
}

fn truth(holds: bool) -> Word
    ensures { result ≡ truth_of holds }
{
    Word {
        kind: Kind::Bool,
        bits: u64::from(holds),
    }
}

fn is_true(a: Word) -> bool
    ensures { result ≡ truth_in a }
{
    a.bits == 1
}

fn sum(a: Word, b: Word) -> Word
    requires left { IsWord a }
    requires right { IsWord b }
    requires alike { AreIntegers a.kind b.kind }
    ensures { result ≡ word_of a.kind (value_of a +ℤ value_of b) }
{
    truncated(a.kind, a.bits.wrapping_add(b.bits))
}

fn difference(a: Word, b: Word) -> Word
    requires left { IsWord a }
    requires right { IsWord b }
    requires alike { AreIntegers a.kind b.kind }
    ensures { result ≡ word_of a.kind (value_of a -ℤ value_of b) }
{
    truncated(a.kind, a.bits.wrapping_sub(b.bits))
}

fn product(a: Word, b: Word) -> Word
    requires left { IsWord a }
    requires right { IsWord b }
    requires alike { AreIntegers a.kind b.kind }
    ensures { result ≡ word_of a.kind (value_of a *ℤ value_of b) }
{
    truncated(a.kind, a.bits.wrapping_mul(b.bits))
}

// Times 2^amount.
fn shifted_left(a: Word, amount: u64) -> Word
    requires { IsWord a }
    ensures { result ≡ word_of a.kind (value_of a *ℤ pos (2 ^ amount)) }
{
    if amount < u64::from(width(a.kind)) {
        truncated(a.kind, a.bits << amount)
    } else {
        of_kind(a, 0)
    }
}

// Divided by 2^amount, rounded down.
fn shifted_right(a: Word, amount: u64) -> Word
    requires { IsWord a }
    ensures { result ≡ word_of a.kind (int_div_euclid (value_of a) (pos (2 ^ amount))) }
{
    if is_negative(a) {
        // rounded down, n = -1 - m has the quotient -1 - m / 2^amount
        let last = mask(width(a.kind));
        of_kind(a, last - quotient(last - a.bits, amount))
    } else {
        of_kind(a, quotient(a.bits, amount))
    }
}

// The number divided by 2^amount, rounded down.
fn quotient(bits: u64, amount: u64) -> u64
    ensures { result ≡ bits / 2 ^ amount }
{
    if amount < 64 { bits >> amount } else { 0 }
}

// Words of one kind are equal where their bits are.
fn is_equal(a: Word, b: Word) -> bool
    requires left { IsWord a }
    requires right { IsWord b }
    requires alike { AreAlike a.kind b.kind }
    ensures { result ≡ are_equal a b }
{
    a.bits == b.bits
}
