//! Breaches of rules, and which of them is reported.

ghost use Rattle.std.specs.Prelude.{◌≡◌, Bool, if◌then◌else◌, ◌++◌, [], ◌∷◌, Option, Some, None};
ghost use Rattle.dh_tree.specs.LeastBreach.{is_before as is_earlier, precedes, lesser};

use dh_base::{Place, Rule};

/// A rule that is broken, and where.
#[derive(Clone, Copy, Debug, PartialEq, Eq)]
pub struct Breach {
    /// The rule.
    pub rule: Rule,
    /// The place.
    pub place: Place,
}

/// Whether a place is before another one.
pub fn is_before(place: Place, other: Place) -> bool
    ensures { result ≡ is_earlier place other }
{
    place.line < other.line || (place.line == other.line && place.column < other.column)
}

impl Breach {
    // Whether it stands before another one: at an earlier place, or at the same one with a lower
    // rule number.
    fn precedes(self, other: Breach) -> bool
        ensures { result ≡ precedes self other }
    {
        let here = self.place;
        let there = other.place;
        here.line < there.line
            || (here.line == there.line
                && (here.column < there.column
                    || (here.column == there.column && self.rule.number() < other.rule.number())))
    }
}

/// Keeps the one that stands first, of the breach that was kept so far and the next.
pub fn keep_least(kept: &mut Option<Breach>, next: Breach)
    ensures { kept.new ≡ lesser kept.old next }
{
    match *kept {
        Some(least) if !next.precedes(least) => {}
        _ => *kept = Some(next),
    }
}
