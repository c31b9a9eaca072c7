//! Laws of charges that are carried from a view to its parent, sort by sort (`dh_viewing`): what an access
//! reaches is within what it charges; and through a way it reaches no other bank than those that may be reached.
//! Stands on `dh_meets`, `dh_ways`, `dh_meaning`, `dh_viewing`, `dh_tree`, `dh_value` and `dh_base`.
#![tactic(auto)]

mod laws;

pub use laws::{
    charged_banks_are_those_reached, charges_cover_what_is_reached, elements_lead_so,
    groups_cover_what_is_reached, shifts_charge_evenly, ways_reach_what_they_may,
};
