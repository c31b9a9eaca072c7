//! Which earlier read each read shares, and how long each phase of a program is in clocks.
//! Takes programs of which the commands are numbered in text order; gives lists by the number of an access, and
//! by phase in text order. Stands on `dh_ports`, `dh_events`, `dh_ways`, `dh_meets`, `dh_meaning`, `dh_tree`,
//! `dh_value` and `dh_base`, of which `dh_meets/specs/Sharing` and `dh_meaning/specs/Levels` say what is shared and
//! how long a phase is. Linear in the program, but that a variable assigned in nested `if`s is joined behind each of
//! them.
#![tactic(auto)]

mod commands;
mod held;
mod leads;
mod lengths;
mod live;
mod sharing;
mod skipping;
mod terms;
mod undoing;
mod views;

pub use lengths::phase_lengths;
pub use sharing::{find_shares, shared_reads};
