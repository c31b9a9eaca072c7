//! Laws on the blocks of a plan, stated on functions that do nothing.

ghost use Rattle.dh_charged.specs.AccessMemories.{ReadyHaveMemories};
ghost use Rattle.dh_charged.specs.ChargedBlocks.{BlocksCharge, PlansCharge, TestsCharge};
ghost use Rattle.dh_charged.specs.ChargedUses.{LedUsesCharge};
ghost use Rattle.dh_charged.specs.LeadersCounted.{AllLeadersAreKeys};
ghost use Rattle.dh_charged.specs.MetAccesses.{CommandsMeetInRange, PlansMeet};
ghost use Rattle.dh_charged.specs.TouchedBlocks.{StraightsTouch, TestsTouch};

/// A block sees registers of variables that it mentions, and counters of loops round it; it sets registers of what it
/// assigns to, or the flag of its test.
pub fn made_blocks_touch()
    ensures straight { StraightsTouch }
    ensures tests { TestsTouch }
{}

/// The paths that lead are as many as the keys that differ, and those on a bank no more than the keys that reach it.
pub fn leaders_are_keys()
    ensures { AllLeadersAreKeys }
{}

/// Accesses that may meet are those of commands, each once and in the order of their numbers; those of a plan are the
/// program's.
pub fn plans_meet_as_programs()
    ensures commands { CommandsMeetInRange }
    ensures plans { PlansMeet }
{}

/// Reads and writes charge a bank no more than their accesses do in the program.
pub fn led_uses_charge()
    ensures { LedUsesCharge }
{}

/// Each access of a ready program is of a memory, where memories and banks are few.
pub fn accesses_have_memories()
    ensures { ReadyHaveMemories }
{}

/// A block charges a bank no more than the program does, and so does a plan of such blocks.
pub fn blocks_charge_less()
    ensures straight { BlocksCharge }
    ensures tests { TestsCharge }
    ensures plans { PlansCharge }
{}
