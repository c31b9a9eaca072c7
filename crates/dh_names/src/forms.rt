//! Forms that are not built yet.

ghost use Rattle.std.specs.Prelude.{◌≡◌, map, if◌then◌else◌, []};
ghost use Rattle.dh_tree.specs.LeastBreach.{least_of};
ghost use Rattle.dh_tree.specs.Seen.{defined_seen};
ghost use Rattle.dh_tree.specs.Forms.{unbuilt, unbuilt_functions};

use dh_base::{Place, Rule};
use dh_tree::{Breach, Function, keep_least};

/// That a form which is not built begins here.
#[inline(never)]
pub fn keep_unbuilt(kept: &mut Option<Breach>, place: Place)
    ensures { kept.new ≡ least_of kept.old (unbuilt place) }
{
    let rule = Rule::Unsupported;
    keep_least(kept, Breach { rule, place });
}

/// That a command is a second one of its list which holds a `---`.
pub fn keep_second(kept: &mut Option<Breach>, is_second: bool, place: Place)
    ensures { kept.new ≡ least_of kept.old (if is_second then unbuilt place else []) }
{
    if is_second {
        keep_unbuilt(kept, place);
    }
}

/// That functions are not built. What is not built within them is not looked for.
#[tactic(auto, using(dh_tree::proofs::Leasts::least_append))]
pub fn keep_functions(kept: &mut Option<Breach>, functions: &[Function])
    ensures { kept.new ≡ least_of kept.old (unbuilt_functions (map defined_seen functions.now)) }
{
    for function in functions {
        keep_unbuilt(kept, function.place);
    }
}
