//! Numbers joined to one, by which keys and structures are sought in tables. What is joined are places in tables
//! and numbers of entities and banks, which are small beside a word, and at most one number of the text: so few
//! keys or structures of a text have one number, whoever wrote it.

ghost use Rattle.std.specs.Prelude.{◌≡◌};
ghost use Rattle.dh_events.specs.Digests as digests;

// Odd, with bits of both values all over a word.
const MULTIPLIER: usize = 2_654_435_761;

/// One number for two, which other pairs mostly do not have.
pub fn joined(first: usize, second: usize) -> usize
    ensures { result ≡ digests.joined_digest first second }
{
    first.wrapping_mul(MULTIPLIER).wrapping_add(second)
}
