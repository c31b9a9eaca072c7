//! How many banks, rows and elements a memory has, and where an element lies whose bank and row are known.
//! Stands on `dh_tree`.
#![tactic(auto)]

mod extents;

pub use extents::{Extent, measure, place_in_bank};
