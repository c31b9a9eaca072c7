//! Quotients and remainders of any two numbers.

ghost use Rattle.std.specs.Prelude.{◌≡◌, ◌/◌, ◌%◌};

/// The quotient; 0 where the divisor is 0.
pub fn quotient(number: u64, by: u64) -> u64
    ensures { result ≡ number / by }
{
    if by == 0 {
        return 0;
    }
    number / by
}

/// The remainder; the number itself where the divisor is 0.
pub fn remainder(number: u64, by: u64) -> u64
    ensures { result ≡ number % by }
{
    if by == 0 {
        return number;
    }
    number % by
}
