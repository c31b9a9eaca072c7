//! Breaches that may lack, and the least of them.

ghost use Rattle.std.specs.Prelude.{◌≡◌, not};
ghost use Rattle.dh_tree.specs.LeastBreach.{least_of};
ghost use Rattle.dh_tree.specs.Kinds as rules;
ghost use Rattle.dh_types.specs.Facts.{listed_breach};

use dh_base::{Place, Rule};
use dh_tree::{Breach, keep_least};

/// Keeps the breach that stands first, of the one that was kept so far and the next, if there is one.
pub fn keep(kept: &mut Option<Breach>, next: Option<Breach>)
    ensures { kept.new ≡ least_of kept.old (listed_breach next) }
{
    if let Some(breach) = next {
        keep_least(kept, breach);
    }
}

/// The breach of a wrong sort or sign at a place, where it is not right.
pub fn mismatch_unless(right: bool, place: Place) -> Option<Breach>
    ensures { listed_breach result ≡ rules.when (not right) (rules.mismatch place) }
{
    if right {
        None
    } else {
        Some(Breach {
            rule: Rule::TypeMismatch,
            place,
        })
    }
}

/// The breach of a number or a right side that is too wide at a place, where it is not right.
pub fn lost_unless(right: bool, place: Place) -> Option<Breach>
    ensures { listed_breach result ≡ rules.when (not right) (rules.width_lost place) }
{
    if right {
        None
    } else {
        Some(Breach {
            rule: Rule::WidthLost,
            place,
        })
    }
}
