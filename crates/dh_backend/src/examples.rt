//! What the definition of a plan that suits netlists is tried on.

ghost use Rattle.dh_plan.specs.ExamplePrograms.{storing_plan};
ghost use Rattle.dh_backend.specs.SuitedPlans.{SuitsNets};

/// The plan of a loop of stores does.
pub fn storing_plan_suits_nets()
    ensures { SuitsNets storing_plan }
{}
