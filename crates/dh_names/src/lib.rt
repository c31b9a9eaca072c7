//! The pass over names: it gives each name the number of what it stands for, and refuses a program
//! that uses a name which is not visible, or declares one twice. The same walk finds the first form
//! that is not built yet.
//! Stands on `dh_tree`. docs/LANGUAGE.md tells which names are visible where.
#![tactic(auto)]

mod bindings;
mod commands;
mod expressions;
mod forms;
mod functions;
mod laws;
mod programs;
mod scopes;
mod views;
mod walks;

pub use laws::resolved_programs_stay_so;
pub use programs::{resolve, resolve_built};
