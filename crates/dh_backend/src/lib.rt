//! From the plan of a program to what its netlist is made of: banks and rows, the graph of states, the schedule without
//! limits and the ports of operations, each by the pass that makes it; and the laws that tie these to the program.
#![tactic(auto)]

mod examples;
mod laws;
mod parts;
mod times;

pub use examples::storing_plan_suits_nets;
pub use laws::{
    accepted_runs_go_on, literal_accesses_are_unchecked, parts_play_programs, plans_are_small,
    plans_keep_ports,
};
pub use parts::{NetParts, Passed, parts_of};
pub use times::{BlockTimes, times_of};
