//! Counts that are reported.

ghost use Rattle.std.specs.Prelude.{◌≡◌, ◌+◌, ◌*◌, min};
ghost use Rattle.dh_tree.specs.Excesses.{most_counted, excess_at, or_else};

use dh_base::{Excess, Limit};

/// Counts that are reported stop here.
const MOST_COUNTED: u64 = 1_000_000_000;

/// A count, where it is above its limit.
pub(crate) fn excess(limit: Limit, count: u64) -> Option<Excess>
    ensures { result ≡ excess_at limit count }
{
    if limit.greatest() < count {
        Some(Excess {
            limit,
            count: count.min(MOST_COUNTED),
        })
    } else {
        None
    }
}

/// The product, as far as counts go.
pub(crate) fn product(left: u64, right: u64) -> u64
    ensures { result ≡ min (left * right) most_counted }
{
    left.saturating_mul(right).min(MOST_COUNTED)
}

/// The sum, as far as counts go.
pub(crate) fn total(left: u64, right: u64) -> u64
    ensures { result ≡ min (left + right) most_counted }
{
    left.saturating_add(right).min(MOST_COUNTED)
}

/// The first of these, where there is one, or else the next.
pub(crate) fn first_of(first: Option<Excess>, next: Option<Excess>) -> Option<Excess>
    ensures { result ≡ or_else first next }
{
    match first {
        Some(excess) => Some(excess),
        None => next,
    }
}
