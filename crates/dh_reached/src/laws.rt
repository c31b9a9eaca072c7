//! Laws on the banks that a block reaches, stated on functions that do nothing.

ghost use Rattle.dh_reached.specs.NeverMeet.{StraightNever, TestNever};
ghost use Rattle.dh_reached.specs.ReachedBlocks.{StraightReaches, TestReaches};
ghost use Rattle.dh_reached.specs.ReachedPlans.{ReachedPlansKeepBanks};
ghost use Rattle.dh_reached.specs.StepBanks.{BlocksKeepBanks};
ghost use Rattle.dh_reached.specs.StepsOfNodes.{NodesKeepBanks};

/// A step that does a block whose uses are told keeps the banks.
pub fn blocks_keep_banks()
    ensures { BlocksKeepBanks }
{}

/// What is put down for a block of straight commands, or of a test, uses what stands in the block, in order, each on the
/// bank that it reaches in every turn of the loops.
pub fn blocks_use_what_stands()
    ensures straight { StraightReaches }
    ensures tests { TestReaches }
{}

/// Of two accesses of a block that never meet one at most is done, at any path.
pub fn unmet_accesses_are_not_both_done()
    ensures straight { StraightNever }
    ensures tests { TestNever }
{}

/// The steps of a plan keep the banks where each of its blocks does, in a step of its own.
pub fn nodes_keep_banks()
    ensures { NodesKeepBanks }
{}

/// The steps of a plan keep the banks whose blocks are put down in a scene, as they stand in the program.
pub fn reached_plans_keep_banks()
    ensures { ReachedPlansKeepBanks }
{}
