//! How many bits numbers take.

ghost use Rattle.std.specs.Prelude.{◌≡◌, ◌≤◌, ◌/◌, ◌%◌, ◌^◌, ◌==◌, ◌↔◌, IsTrue};
ghost use Rattle.dh_rows.specs.MadeOperations.{bits_in, moved_width};

/// How many bits a number takes: 0 for 0.
pub fn bit_length(number: u64) -> u8
    ensures { result ≡ bits_in number }
{
    let zeros = number.leading_zeros();
    64u8.saturating_sub(zeros as u8)
}

/// The width of an index that an offset moved in a dimension of this size: two bits more than the size takes. From a
/// small offset on nothing is then below -size, nor from 3 * size on, so that no number out of range wraps into it.
pub fn moved_width(size: u64) -> u8
    ensures { result ≡ moved_width size }
{
    let zeros = size.leading_zeros();
    66u8.saturating_sub(zeros as u8)
}

/// Whether this bit of a number is set.
pub fn has_bit(number: u64, by: u8) -> bool
    ensures { result ≡ (number / 2 ^ by % 2 == 1) }
{
    by < 64 && (number >> by) % 2 == 1
}

/// Whether there are no more numbers of so many bits than this.
pub fn has_few(width: u8, size: u64) -> bool
    ensures { IsTrue result ↔ (2 ^ width ≤ size) }
{
    width < 64 && 1u64 << width <= size
}

/// Whether a number is this power of two.
pub fn is_power(number: u64, length: u8) -> bool
    ensures { IsTrue result ↔ (number ≡ 2 ^ length) }
{
    length < 64 && 1u64 << length == number
}
