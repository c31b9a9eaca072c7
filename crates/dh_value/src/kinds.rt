//! The kinds of values.

ghost use Rattle.std.specs.Prelude.{◌≡◌};
ghost use Rattle.dh_value.specs.Words.{width_of};

/// The kind of a value. A width is a number of bits from 1 to 64.
#[derive(Clone, Copy, Debug, PartialEq, Eq)]
pub enum Kind {
    /// True or false, one bit.
    Bool,
    /// A number from 0 to 2^width - 1.
    Unsigned(u8),
    /// A number from -2^(width - 1) to 2^(width - 1) - 1, in two's complement.
    Signed(u8),
}

/// The bits of a value of the kind.
pub fn width(kind: Kind) -> u8
    ensures { result ≡ width_of kind }
{
    match kind {
        Kind::Bool => 1,
        Kind::Unsigned(width) | Kind::Signed(width) => width,
    }
}
