//! Laws of carried charges.

ghost use Rattle.dh_tree.specs.declared.viewing.ViewMap.{ViewMap};
ghost use Rattle.dh_tree.specs.ViewShapes.{IsViewMap};
ghost use Rattle.dh_viewing.specs.Carried.{LeadsSo};
ghost use Rattle.dh_carried.specs.CarriedLaws.{ChargedBanksAreReached, ChargesCoverWhatIsReached, GroupsCoverWhatIsReached, ReachedBanksAreCharged, ShiftsChargeEvenly, WaysReachWhatTheyMay};

/// Of copies of one access, whose elements lead through views with one offset each, no more distinct keys
/// lie in a bank behind the views than are carried there.
pub fn charges_cover_what_is_reached()
    ensures { ChargesCoverWhatIsReached }
{}

/// The elements that a view names with one list of offsets lead so.
#[tactic(auto, using(crate::proofs::LeadingElements::leads_so))]
pub fn elements_lead_so()
    ensures { (v : ViewMap) → IsViewMap v → LeadsSo v }
{}

/// Behind a shift all banks are charged alike.
pub fn shifts_charge_evenly()
    ensures { ShiftsChargeEvenly }
{}

/// An element that indices lead to through a way lies in a bank of the memory that may be reached from theirs.
pub fn ways_reach_what_they_may()
    ensures { WaysReachWhatTheyMay }
{}

/// Of copies of one access through views that lead to elements in one step, no more distinct keys lie in a bank of the
/// memory than the access charges there: group by group by what is carried, and all groups by their sum.
pub fn groups_cover_what_is_reached()
    ensures { GroupsCoverWhatIsReached }
{}

/// An access through views charges a bank of its memory exactly where it may reach it at some path, from a bank of the
/// named view that is there.
pub fn charged_banks_are_those_reached()
    ensures charged { ChargedBanksAreReached }
    ensures reached { ReachedBanksAreCharged }
{}
