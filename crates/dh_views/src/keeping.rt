//! Breaches that are kept.

ghost use Rattle.std.specs.Prelude.{◌≡◌, [], ◌∷◌};
ghost use Rattle.dh_tree.specs.Kinds.{when};
ghost use Rattle.dh_tree.specs.LeastBreach.{least_of, breach};

use dh_base::{Place, Rule};
use dh_tree::{Breach, keep_least};

/// A rule that may be broken at a place.
pub(crate) fn keep_if(kept: &mut Option<Breach>, is_broken: bool, rule: Rule, place: Place)
    ensures { kept.new ≡ least_of kept.old (when is_broken (breach rule place ∷ [])) }
{
    if is_broken {
        keep_least(kept, Breach { rule, place });
    }
}
