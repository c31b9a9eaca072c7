//! Data files and reports: which JSON text holds the initial contents of a program's memories, what
//! is the first fault of one that does not, and the one line of JSON that tells how a run stands.
//! Stands on `dh_tree` and `serde_json`. specs/DataFiles.antt and specs/Reports.antt tell the formats.
#![tactic(auto)]

mod data_files;
mod laws;
mod members;
mod reports;

pub use data_files::{DataFault, read};
pub use laws::bytes_mean_one_thing;
pub use reports::{Ending, report};
