//! Whole numbers, one for each dimension.

ghost use Rattle.std.specs.Prelude.{◌≡◌, ◌<◌, ◌≤◌, ◌+◌, [], ◌∷◌, ◌++◌};
ghost use Rattle.dh_viewing.specs.Numbers.{numbers_in};

/// The most dimensions of a memory.
pub const MAX_DIMS: usize = 6;

/// Whole numbers, one for each dimension of a memory or a view: the indices of an element, or offsets.
#[derive(Clone, Copy)]
pub struct Index {
    /// How many there are, at most 6.
    pub len: u8,
    /// They, in order; what is behind them tells nothing.
    pub at: [i128; MAX_DIMS],
}

/// No number.
pub fn no_numbers() -> Index
    ensures numbers { numbers_in result ≡ [] }
    ensures long { result.len ≡ 0 }
{
    Index {
        len: 0,
        at: [0; MAX_DIMS],
    }
}

/// These numbers with one more behind them.
pub fn with_number(numbers: Index, number: i128) -> Index
    requires { numbers.len < 6 }
    ensures numbers { numbers_in result ≡ numbers_in numbers ++ number ∷ [] }
    ensures long { result.len ≡ numbers.len + 1 }
{
    let mut at = numbers.at;
    at[numbers.len as usize] = number;
    Index {
        len: numbers.len + 1,
        at,
    }
}

/// They as a list.
pub fn listed(numbers: &Index) -> &[i128]
    requires { numbers.now.len ≤ 6 }
    ensures { result.now ≡ numbers_in numbers.now }
{
    &numbers.at[..numbers.len as usize]
}
