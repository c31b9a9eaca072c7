//! The pass over shapes, indices, bounds and views: it refuses a program whose banks do not divide sizes,
//! whose copies do not go with banks, whose numbers are out of range, or whose views do not go with banks.
//! What one command breaks is told apart, so that a pass over other rules can look at both in one walk.
//! Stands on `dh_viewing`, `dh_shape`, `dh_tree`, `dh_value` and `dh_base`. docs/LANGUAGE.md tells the rules.
#![tactic(auto)]

mod accesses;
mod declared;
mod keeping;
mod through;
mod walks;

pub use declared::keep_decl_shapes;
pub use walks::{keep_own, keep_views, shapes};
