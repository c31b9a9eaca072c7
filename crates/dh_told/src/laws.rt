//! Laws on the plan of a ready program, as it is made, stated on functions that do nothing.

ghost use Rattle.dh_told.specs.FormedPlans.{ReadyPlansAreFormed};
ghost use Rattle.dh_told.specs.LastingPlans.{ReadyPlansAreMeasured, ReadyPlansHaveLengths};
ghost use Rattle.dh_told.specs.MadeBanks.{MadePlansKeepBanks};
ghost use Rattle.dh_told.specs.MadeFormed.{MadeStraightsAreFormed, MadeTestsAreFormed};
ghost use Rattle.dh_told.specs.MeasuredBlocks.{MadeStraightsAreLong, MadeTestsAreLong};
ghost use Rattle.dh_told.specs.MeasuredPlans.{MadePlansAreLong};
ghost use Rattle.dh_told.specs.MultipliedPlans.{MadePlansMultiply};
ghost use Rattle.dh_told.specs.PlacedSound.{PlacedStraightsAreSound, PlacedTestsAreSound};
ghost use Rattle.dh_told.specs.PlansTold.{ReadyPlansAreSound};
ghost use Rattle.dh_told.specs.ScenesKnown.{ReadyScenesHold, ReadyScenesTell};
ghost use Rattle.dh_told.specs.SizedRegisters.{RegistersAreSized};
ghost use Rattle.dh_told.specs.SpentPlans.{MadeNodesCharge, MadePlansCharge};

/// The scene tells of each variable what the program declares, and the plan has registers for all of them.
pub fn ready_scenes_are_known()
    ensures tells { ReadyScenesTell }
    ensures holds { ReadyScenesHold }
{}

/// The blocks of a plan are sound in whatever loops they stand.
pub fn ready_plans_are_sound()
    ensures { ReadyPlansAreSound }
{}

/// The plan whole is formed.
pub fn ready_plans_are_formed()
    ensures { ReadyPlansAreFormed }
{}

/// The blocks that were made are formed, where names, kinds and sites of their commands and tests are as they should be.
pub fn made_blocks_are_formed()
    ensures straights { MadeStraightsAreFormed }
    ensures tests { MadeTestsAreFormed }
{}

/// The straight phases and tests of a ready program are sound and typed in the loops in which they stand.
pub fn placed_blocks_are_sound()
    ensures straights { PlacedStraightsAreSound }
    ensures tests { PlacedTestsAreSound }
{}

/// Each register of what is made of a ready program has a kind of a width from 1 to 64.
pub fn registers_are_sized()
    ensures { RegistersAreSized }
{}

/// Blocks that were made of a ready program's phases stand as what is told of their lengths asks, and so are as long.
pub fn ready_plans_last()
    ensures blocks { ReadyPlansAreMeasured }
    ensures plans { ReadyPlansHaveLengths }
{}

/// The steps of a plan keep the banks, which was made whole of a ready program.
pub fn made_plans_keep_banks()
    ensures { MadePlansKeepBanks }
{}

/// The blocks that were made of straight commands and of tests are as long as their phases.
pub fn made_blocks_are_as_long_as_their_phases()
    ensures straights { MadeStraightsAreLong }
    ensures tests { MadeTestsAreLong }
{}

/// So are those of a plan that was made.
pub fn made_plans_are_as_long_as_their_phases()
    ensures { MadePlansAreLong }
{}

/// Each block of a plan, and so the plan, charges a bank no more than the program does.
pub fn made_plans_charge()
    ensures nodes { MadeNodesCharge }
    ensures plans { MadePlansCharge }
{}

/// Each block of a plan multiplies no more often than its phase at each path.
pub fn made_plans_multiply()
    ensures { MadePlansMultiply }
{}
