//! Laws on plans of programs, stated on functions that do nothing.

ghost use Rattle.dh_tree.specs.PlainTrees.{Program};
ghost use Rattle.dh_plan.specs.PlainPlans.{PlainPlan};
ghost use Rattle.dh_backend.specs.PlanLaws.{AcceptedNeverStuck, AddressesKeepPorts};
ghost use Rattle.dh_backend.specs.PlanLaws.{LiteralsAreUnchecked, PlansKeepPorts};
ghost use Rattle.dh_backend.specs.NetParts.{PartsPlayPrograms};
ghost use Rattle.dh_backend.specs.OneThread.{PlansAreOneThread};
ghost use Rattle.dh_backend.specs.SuitedPlans.{BlocksAreShort, FaultsAreFew, TimesAreSmall};

/// The plan of a program that keeps its ports keeps its own, and so does what addresses are made of.
pub fn plans_keep_ports()
    ensures plans { (p : Program) → PlansKeepPorts p }
    ensures addresses { AddressesKeepPorts }
{}

/// Without limits a block of a plan takes no more clocks than it has operations, and one; so all clocks and lengths of
/// its least schedule are small. The plan of a program within the limit on plans has few faults, and one thread.
pub fn plans_are_small()
    ensures blocks { (plan : PlainPlan) → BlocksAreShort plan }
    ensures times { (plan : PlainPlan) → TimesAreSmall plan }
    ensures faults { (p : Program) → FaultsAreFew p }
    ensures threads { (p : Program) → PlansAreOneThread p }
{}

/// No run of a program that is accepted is stuck.
pub fn accepted_runs_go_on()
    ensures { (p : Program) → AcceptedNeverStuck p }
{}

/// An access of a program whose indices are literals, and which passes through no view that moves, or whose row of a bank
/// is a literal, has no check in the plan with banks and rows, and its bank and row are constants there.
pub fn literal_accesses_are_unchecked()
    ensures { (p : Program) → LiteralsAreUnchecked p }
{}

/// A net that plays the parts of a program's plan plays the program, in the lengths of its phases.
pub fn parts_play_programs()
    ensures { (p : Program) → PartsPlayPrograms p }
{}
