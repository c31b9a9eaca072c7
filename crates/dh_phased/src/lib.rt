//! The phases of a program whole: its loops have counters of their own, and each of its blocks does its phase. Stands
//! on `dh_gathering` and `dh_blocks`, and has no code: laws.
#![tactic(auto)]

mod laws;

pub use laws::{loops_are_own, phases_are_done, ready_scenes_are_told, rounds_are_top};
