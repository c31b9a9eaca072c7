//! The rules on ports for programs whose loops may be copied: no logical step needs more ports of a bank
//! than it has, and none reads a bank behind a write of it.
//! Stands on `dh_events`, `dh_carried`, `dh_ways`, `dh_shape`, `dh_viewing`, `dh_meets`, `dh_meaning`,
//! `dh_tree`, `dh_value` and `dh_base`.
//! docs/LANGUAGE.md tells the rules.
//!
//! One walk over the tree notes what happens in order of evaluation (`dh_events`), with the number of its
//! Straight phase and of the structure of its indices at each access; all else goes over flat lists.
#![tactic(auto)]

mod accepted;
mod banks;
mod carrying;
mod checking;
mod copies;
mod counting;
mod grouping;
mod keeping;
mod lasts;
mod laws;
mod leading;
mod levels;
mod marks;
mod moves;
mod nesting;
mod ordering;
mod sharing;
mod spending;
mod walking;

pub use accepted::Accepted;
pub use banks::{bank_count, entity_of, residue_of_copy};
pub use carrying::{Carrier, carries};
pub use checking::{check_counted, check_ports};
pub use laws::port_breaches_are_one;
pub use leading::carriers_of;
pub use nesting::nests_of;
pub use sharing::read_key;
