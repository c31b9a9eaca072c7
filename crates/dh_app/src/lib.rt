//! The program's top call: from the words to the status, over any files, output and engine.
//! Stands on the crates of every stage. docs/ARCHITECTURE.md has the way of a program through them.
#![tactic(auto)]

mod checking;
mod compiling;
mod engine;
mod interpreting;
mod lines;
mod lowering;
mod replies;
mod reporting;
mod running;
mod simulating;
mod sources;
mod words;

pub use engine::{Engine, Finish, NetEngine};
pub use running::run;
pub use words::Job;
