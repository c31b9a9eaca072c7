//! What the definition of a net of a plan is tried on.

ghost use Rattle.std.specs.Prelude.{[], ◌∷◌};
ghost use Rattle.dh_plan.specs.PlayedPlans.{PlaysPlan};
ghost use Rattle.dh_lower.specs.ExampleNets.{store_holds, store_making, store_net, store_plan};
ghost use Rattle.dh_lower.specs.ExampleSelects.{read_holds, read_making, read_net, read_plan};
ghost use Rattle.dh_lower.specs.NetOfPlan.{IsNetOf};

/// The plan of one store has a net that is made of it.
pub fn a_store_has_its_net()
    ensures { IsNetOf store_making store_net store_holds }
{}

/// That net plays the plan, from all memories that fit; by the lemma that serves every net that is made
/// of a plan.
pub fn a_store_is_played()
    ensures { PlaysPlan store_plan (1 ∷ []) store_net }
{}

/// The plan of one read that picks one of two banks has a net that is made of it.
pub fn a_picked_read_has_its_net()
    ensures { IsNetOf read_making read_net read_holds }
{}

/// That net plays the plan, too.
pub fn a_picked_read_is_played()
    ensures { PlaysPlan read_plan (2 ∷ []) read_net }
{}
