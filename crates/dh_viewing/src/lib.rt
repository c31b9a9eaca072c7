//! Views: which element of its parent an index of a view names, which banks of its parent a view can reach
//! from one of its own, what each view of a program is, and the rule on factors and brackets. (What a view
//! is, its shape and the rules on views stand in `dh_tree`.)
//! Stands on `dh_tree`, `dh_value` and `dh_base`. docs/LANGUAGE.md tells the language.
#![tactic(auto)]

mod bank_sets;
mod collecting;
mod declaring;
mod elements;
mod factors;
mod judging;
mod keeping;
mod laws;
mod numbers;
mod offsets;
mod placing;
mod sharing;
mod tables;

pub use bank_sets::{BankSet, banks_of};
pub use collecting::{shape_of_memory, view_map};
pub use elements::through;
pub use judging::{JudgedViews, judge_views};
pub use keeping::{divides, shape_keeps};
pub use laws::{kept_views_are_all, kept_views_have_shapes, offsets_in_range_are_small};
pub use numbers::{Index, MAX_DIMS, listed, no_numbers, with_number};
pub use offsets::moves;
pub use placing::{make_room, place_at};
pub use sharing::{LastMaps, SharedMap};
