//! The simulator of a netlist over flat arrays, and the run of a net under a limit of clocks.
//! Stands on `dh_net`. docs/NETLIST.md tells the netlist.
#![tactic(auto)]

mod arrays;
mod cells;
mod layouts;
mod ports;
mod runs;
mod simulator;

pub use arrays::Shown;
pub use runs::{RunEnd, run_net};
pub use simulator::Sim;
