//! The ground of every other crate: places, rules, limits, faults, outcomes and statuses by name,
//! a list type that contracts see as a list, and the outside as two traits.
//! Stands on nothing of this repository. docs/ARCHITECTURE.md has the map.
#![tactic(auto)]

mod faults;
mod limits;
mod lists;
mod mem_files;
mod mem_sink;
mod outcomes;
mod outside;
mod places;
mod rules;
mod statuses;

pub use faults::PassFault;
pub use limits::{Excess, Limit};
pub use lists::{Items, NoMemory};
pub use mem_files::MemFiles;
pub use mem_sink::MemSink;
pub use outcomes::{FaultKind, Outcome};
pub use outside::{FileFault, Files, Sink, SinkFault};
pub use places::Place;
pub use rules::Rule;
pub use statuses::Status;
