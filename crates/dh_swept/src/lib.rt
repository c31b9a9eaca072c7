//! Keeps those cells and registers of a net that its drivers or outputs need, by new numbers. The net does what it did.
//! Stands on `dh_cells` and `dh_plan`.
#![tactic(auto)]

mod flags;
mod keeping;
mod laws;
mod marking;
mod numbering;
mod sweeping;

pub use flags::Flags;
pub use keeping::{keep_cells, keep_registers, rename_drivers};
pub use laws::swept_nets_do_the_same;
pub use marking::{Marks, mark_needed};
pub use numbering::{Numbers, number_marked, number_of};
pub use sweeping::{Swept, sweep};
