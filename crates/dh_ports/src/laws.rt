//! What holds of all programs, stated on functions that do nothing: how the walks of this crate tell what the
//! definitions say.

ghost use Rattle.std.specs.Prelude.{◌≡◌, ℕ};
ghost use Rattle.dh_base.specs.declared.places.Place.{Place};
ghost use Rattle.dh_tree.specs.declared.breaches.Breach.{Breach};
ghost use Rattle.dh_tree.specs.Meets.{In};
ghost use Rattle.dh_tree.specs.Numbers.{IsNumbered};
ghost use Rattle.dh_tree.specs.PlainTrees.{Program};
ghost use Rattle.dh_meets.specs.MayMeet.{meets_in};
ghost use Rattle.dh_meets.specs.Ports.{KeepsPorts, ReadsAfterWrite, IsFirstPortBreach, KeepsPortRules};
ghost use Rattle.dh_ports.specs.PortLaws.{ChargesTellMeetings, ClaimsAreCharges, FirstSpendingIsTold, IncidentsTie, IncidentsTouchAll, LateReadsAreTold, MeetingsAreCharged, SharedReadsAreFound, SpentPortsAreTold, StepsFollowCourses};
ghost use Rattle.dh_ports.specs.Spent.{AccessOverspends};
ghost use Rattle.dh_ports.specs.Wholes.{TellsLoops, TellsPhases};
ghost use Rattle.dh_ports.specs.WritesFound.{FindsWrite};

/// What happens in a command is tied to the tree of its accesses: with any charges, it takes the tree's load of a
/// slot, and each access finds what the loads before it leave.
pub fn incidents_tie()
    ensures { IncidentsTie }
{}

/// A program keeps its ports where no charged access finds fewer than it needs; where one does, ports are
/// spent at the first of them.
pub fn ports_are_spent_at_charges()
    ensures kept { (p : Program) → ((k : ℕ) → In k (meets_in p) → AccessOverspends p k → ⊥) → KeepsPorts p }
    ensures spent { FirstSpendingIsTold }
{}

/// An access that is not charged itself finds a charge up to it where a charged access before it may meet it,
/// and only there.
pub fn charges_are_met()
    ensures found { ChargesTellMeetings }
    ensures met { MeetingsAreCharged }
{}

/// A read follows a write of its bank in its phase where it finds a charge of such writes, and only there.
pub fn reads_find_writes()
    ensures found { (p : Program) (place : Place) → FindsWrite p place → ReadsAfterWrite p place }
    ensures finds { (p : Program) (place : Place) → ReadsAfterWrite p place → FindsWrite p place }
{}

/// The first breach of the rules on ports is one, and there is none where they are kept.
pub fn port_breaches_are_one()
    ensures one { (p : Program) (b c : Breach) → IsFirstPortBreach p b → IsFirstPortBreach p c
        → b ≡ c }
    ensures none { (p : Program) (b : Breach) → KeepsPortRules p → IsFirstPortBreach p b → ⊥ }
{}

/// The step j of an access is found among the steps of incidents, and before it is left of a slot, of which the
/// steps of the access before it take nothing, what the course of all that is taken of the slot leaves there.
pub fn steps_follow_courses()
    ensures { StepsFollowCourses }
{}

/// The accesses of a command's incidents are those of its events, in order.
pub fn incidents_touch_all()
    ensures { IncidentsTouchAll }
{}

/// Two accesses of a program stand in one Straight phase exactly where their incidents have one phase, and the
/// unrolled loops round each are those that its incident names.
pub fn incidents_tell_sites()
    ensures phases { (first : ℕ) (p : Program) → IsNumbered first p.body → TellsPhases p }
    ensures loops { (first : ℕ) (p : Program) → IsNumbered first p.body → TellsLoops p }
{}

/// An access shares an earlier one exactly where the walk finds so.
pub fn shared_reads_are_found()
    ensures { SharedReadsAreFound }
{}

/// What an access takes of a bank is its charge there.
pub fn claims_are_charges()
    ensures { ClaimsAreCharges }
{}

/// The first access that takes more ports than are left is where ports are spent; there is none where they are
/// kept.
pub fn spent_ports_are_told()
    ensures { SpentPortsAreTold }
{}

/// The reads that find nothing left of their bank in their phase are those that come behind a write.
pub fn late_reads_are_told()
    ensures { LateReadsAreTold }
{}
