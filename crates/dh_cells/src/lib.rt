//! Circuits: cells of a net, added one by one, each with what its wire shows. Words are held on wires as their bits.
//! A circuit takes the memories and the widths of the registers; what it gives are wires, each told for every way in
//! which registers, ports and cells can settle (`specs/Settled`), and in the end cells of a valid net.
//! Stands on `dh_net`.
#![tactic(auto)]

mod chaining;
mod choices;
mod circuits;
mod operators;
mod trees;
mod truths;

pub use choices::{push_choice, push_converted, push_guarded};
pub use circuits::Circuit;
pub use operators::{push_at_most, push_less, push_operator};
pub use trees::{Tested, push_any, push_first};
pub use truths::{push_both, push_either, push_match, push_more, push_not};
