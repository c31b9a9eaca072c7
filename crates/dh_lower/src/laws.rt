//! Laws on nets of plans, stated on functions that do nothing.

ghost use Rattle.std.specs.Prelude.{ℕ, List};
ghost use Rattle.dh_net.specs.declared.nets.Driver.{Driver};
ghost use Rattle.dh_net.specs.declared.ports.Port.{Port};
ghost use Rattle.dh_plan.specs.BoundPorts.{Uses};
ghost use Rattle.dh_plan.specs.LegalSchedules.{Timing};
ghost use Rattle.dh_plan.specs.PlainPlans.{PlainPlan};
ghost use Rattle.dh_tree.specs.declared.tables.MemEntry.{MemEntry};
ghost use Rattle.dh_lower.specs.ClockLaws.{ClockWrites, ClocksKeepReads, StepPortsRise};
ghost use Rattle.dh_lower.specs.FitsLaws.{ClocksKeepFits};
ghost use Rattle.dh_lower.specs.KeyedPuts.{PutsCommute};
ghost use Rattle.dh_lower.specs.LowerLaws.{PortsLookBack, ShowsAllAtLast, ShowsWhatIsThere, SpotsFollowPlaces};
ghost use Rattle.dh_lower.specs.PortUsers.{User};
ghost use Rattle.dh_lower.specs.StepFacts.{AskingUsersAct, OneUserActs};
ghost use Rattle.dh_lower.specs.StepLaws.{ClocksWriteSteps, EndsAreShown, PortsNeedNoMemories};

/// Wires that solve the equations of a block by what its ports hold show each value once it is there, and in the
/// last clock all of them.
pub fn wires_show_values()
    ensures there { ShowsWhatIsThere }
    ensures last { ShowsAllAtLast }
    ensures back { PortsLookBack }
{}

/// A graph that does a plan goes on behind each step as the plan does.
pub fn spots_follow_places()
    ensures { SpotsFollowPlaces }
{}

/// In a step of a plan that keeps its banks, with the ports of a binding, one user of a port at most
/// acts; and a user that asks for its port, by what wires show, acts.
pub fn ports_have_one_user()
    ensures one { (plan : PlainPlan) (u : Uses) (users : (port : ℕ) → List User)
        → OneUserActs plan u users }
    ensures asking { (plan : PlainPlan) (t : Timing) (u : Uses) → AskingUsersAct plan t u }
{}

/// In a clock of a step no port clashes or strays, and each read is made whose clock has come.
pub fn clocks_keep_reads()
    ensures { (plan : PlainPlan) (t : Timing) (u : Uses) (users : (port : ℕ) → List User)
        → ClocksKeepReads plan t u users }
{}

/// The same writes in two orders leave the same memories, where in both writes of one element come
/// from rising ports; so they do in the order of operations, and in the order of ports.
pub fn writes_come_by_ports()
    ensures commute { PutsCommute }
    ensures step { (plan : PlainPlan) (u : Uses) (users : (port : ℕ) → List User)
        → StepPortsRise plan u users }
    ensures clock { (table : List MemEntry) (wires : List ℕ) (dss : List (List Driver))
        (ps : List Port)
        → ClockWrites table wires dss ps }
{}

/// In the clock in which a step's writes are made the ports write those of its events; in others they
/// write nothing, and no driver that writes is active.
pub fn clocks_write_steps()
    ensures { (plan : PlainPlan) (t : Timing) (u : Uses) (users : (port : ℕ) → List User)
        → ClocksWriteSteps plan t u users }
{}

/// Wires that show all values of a step's blocks show its faults, writes and sets, though they look at
/// ports and not at memories.
pub fn step_ends_are_shown()
    ensures ends { EndsAreShown }
    ensures values { PortsNeedNoMemories }
{}

/// States of a valid net go on fitting its widths, from clock to clock, where memories fit.
pub fn clocks_keep_fits()
    ensures { ClocksKeepFits }
{}
