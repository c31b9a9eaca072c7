//! The Verilog text of a net: what it is, a writer of it, and the law that a text is the text of at
//! most one net.
//! Stands on `dh_net`. docs/NETLIST.md tells the text's format.
#![tactic(auto)]

mod expressions;
mod heads;
mod laws;
mod locals;
mod ports;
mod writing;

pub use laws::text_tells_the_net;
pub use writing::write;
