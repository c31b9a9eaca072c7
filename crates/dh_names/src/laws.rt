//! What holds of every resolved program, stated on a function that does nothing.

ghost use Rattle.std.specs.Prelude.{◌≡◌};
ghost use Rattle.dh_tree.specs.PlainTrees.{Program};
ghost use Rattle.dh_tree.specs.Breaches.{breaches_of};
ghost use Rattle.dh_tree.specs.Resolved.{resolved, HasEntities};

/// A resolved program has its entities, so that resolving it again changes nothing, and it breaks the
/// rules on names where the program did that it was made from.
pub fn resolved_programs_stay_so()
    ensures entities { (p : Program) → HasEntities (resolved p) }
    ensures breaches { (p : Program) → breaches_of (resolved p) ≡ breaches_of p }
{}
