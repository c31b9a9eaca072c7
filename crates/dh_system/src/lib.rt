//! The files and the standard output of the system, as the outside of `dh_base`: each counts what it did and the
//! faults that it met, and tells no bytes; and how the process ends. docs/ARCHITECTURE.md has the map.
#![tactic(auto)]

mod exiting;
mod files;
mod output;

pub use exiting::exit_code;
pub use files::RealFiles;
pub use output::StdSink;
