//! Shapes of memories: what an index of an access is, where an element lies, and which limits the
//! memories and copies of a program exceed.
//! Stands on `dh_tree`, `dh_value` and `dh_base`. docs/LANGUAGE.md tells the rules.
#![tactic(auto)]

mod copies;
mod counting;
mod indices;
mod limits;
mod places;

pub use indices::{IndexKind, classify};
pub use limits::within;
pub use places::bank_row;
