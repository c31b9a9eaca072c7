//! The low bits of a number, and which of them are set.

ghost use Rattle.std.specs.Prelude.{◌≡◌, ◌-◌, ◌%◌, ◌^◌, ◌<◌, ◌≤◌, ◌↔◌, IsTrue};
ghost use Rattle.dh_value.specs.Words.{IsWidth};

/// The greatest number of this many bits, from 1 to 64.
pub fn mask(width: u8) -> u64
    requires { IsWidth width }
    ensures { result ≡ 2 ^ width - 1 }
{
    u64::MAX >> (64 - width)
}

/// The lowest bits of a number, this many, from 1 to 64.
pub fn low(bits: u64, width: u8) -> u64
    requires { IsWidth width }
    ensures { result ≡ bits % 2 ^ width }
{
    bits & mask(width)
}

/// Whether the number of this many bits, from 1 to 64, has its highest set: in two's complement,
/// whether it is negative.
pub fn is_high(bits: u64, width: u8) -> bool
    requires width { IsWidth width }
    requires fits { bits < 2 ^ width }
    ensures { IsTrue result ↔ (2 ^ (width - 1) ≤ bits) }
{
    bits >> (width - 1) != 0
}

/// Whether the number has at most this many bits.
pub fn is_below(number: u128, width: u8) -> bool
    ensures { IsTrue result ↔ (number < 2 ^ width) }
{
    width >= 128 || number >> width == 0
}
