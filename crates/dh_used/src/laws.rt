//! Laws on how often accesses are made, stated on functions that do nothing.

ghost use Rattle.dh_used.specs.MadePlans.{MadeNodesUse, MadePlansUse};
ghost use Rattle.dh_used.specs.SourceAims.{MadePlansAim};
ghost use Rattle.dh_used.specs.SourceReaches.{MadePlansReach};
ghost use Rattle.dh_used.specs.SourceSites.{BlocksAreSited, TestsAreSited};
ghost use Rattle.dh_used.specs.UsedBlocks.{StraightsUseAsMade, TestsUseAsMade};
ghost use Rattle.dh_used.specs.UsedPlans.{PlansUse};

/// The sites of a block's accesses are those of accesses of the source, which its commands make; and so are those of a
/// test.
pub fn sites_are_of_the_source()
    ensures blocks { BlocksAreSited }
    ensures tests { TestsAreSited }
{}

/// A block reads or writes each access that it makes with each of its keys once, and probes it at each of its paths; an
/// access that shares an earlier read it does not read.
pub fn blocks_use_as_made()
    ensures straight { StraightsUseAsMade }
    ensures tests { TestsUseAsMade }
{}

/// A plan whose blocks do so, each that of one node, reads or writes each access that a phase of the program makes with
/// each of its keys once, and probes it at each of its paths.
pub fn plans_use_by_keys()
    ensures { PlansUse }
{}

/// So does a plan whose nodes were made of the phases of a program, where each block is that of one node.
pub fn made_plans_use_by_keys()
    ensures nodes { MadeNodesUse }
    ensures plans { MadePlansUse }
{}

/// It reaches memories of accesses of the source, each as its access does.
pub fn made_plans_reach_the_source()
    ensures { MadePlansReach }
{}

/// It names their elements as they do: a literal index or row is a constant, put down without a guard.
pub fn made_plans_aim_as_the_source()
    ensures { MadePlansAim }
{}
