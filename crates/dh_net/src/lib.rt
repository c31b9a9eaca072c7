//! The netlist: its data, when it is valid, its clock, its runs, and in `specs/Plays.antt` what it
//! is for a net to play a program.
//! Stands on `dh_tree`. docs/NETLIST.md tells the netlist.
#![tactic(auto)]

mod laws;
mod nets;
mod playing;
mod ports;
mod tables;
mod validity;

pub use laws::valuation_is_unique;
pub use nets::{Cell, CellForm, Driver, Net, Register};
pub use playing::playing_tells_the_report;
pub use ports::{Port, count_ports, list_ports, memory_port};
pub use tables::is_program_table;
pub use validity::{kind_width, row_width, valid, wire_width};
