//! The load of a tree of accesses is the largest sum of charges that may come together.

ghost use Rattle.std.specs.Prelude.{ℕ};
ghost use Rattle.dh_tree.specs.Meets.{Meets, LoadIsLargest, EachUptoIsLargest};

/// For any charges, and every tree in which no access stands twice: its load is the largest sum of
/// charges over a set of accesses of which any two may meet, and its load up to an access is the
/// largest such sum over the sets that this access completes.
pub fn loads_are_largest_sums()
    ensures whole { (charge : ℕ → ℕ) (t : Meets) → LoadIsLargest charge t }
    ensures upto_one { (charge : ℕ → ℕ) (t : Meets) → EachUptoIsLargest charge t }
{}
