//! Whether a text is an accepted program: the passes in order, and the first of them that refuses.
//! Stands on the passes' crates.
#![tactic(auto)]

mod checking;
mod laws;

pub use checking::{CheckFault, check, check_without_ports};
pub use dh_ports::Accepted;
pub use laws::ready_programs_have_tables;
