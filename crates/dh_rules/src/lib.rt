//! The pass over where memories are declared, what is assigned to, and what stands in copies of a loop's
//! body: it refuses a program whose memories stand where none may stand, an assignment to an iterator or out
//! of a body of several copies, steps that copies would not take together, and reducers that join no copies.
//! Its walk over the commands finds what breaks the rules on shapes, too, and notes how many phases each command
//! has, so that all of it takes one.
//! Stands on `dh_views`, `dh_events`, `dh_viewing`, `dh_meaning`, `dh_tree` and `dh_base`. docs/LANGUAGE.md tells
//! the rules.
#![tactic(auto)]

mod contexts;
mod keeping;
mod placements;
mod reducers;
mod steps;

pub use placements::{rules, shapes_and_places};
