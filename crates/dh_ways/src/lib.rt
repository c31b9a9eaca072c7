//! The ways of views, as code keeps them; and laws of them: they are those of the views of a program, the
//! views on each follow one another to a memory, and a memory has none.
//! Stands on `dh_meaning`, `dh_viewing`, `dh_tree`, `dh_value` and `dh_base`. docs/LANGUAGE.md tells the language.
#![tactic(auto)]

mod hiding;
mod laws;
mod linking;
mod placing;
mod standing;
mod tracing;
mod variables;
mod ways;

pub use hiding::hidden_in;
pub use laws::{
    hidden_variables_are_apart, kept_ways_lead, loops_round_views_are_few, memories_have_no_way,
    ways_are_of_the_views, ways_keep_their_offsets,
};
pub use linking::WayRef;
pub use placing::WayTable;
pub use tracing::{ways_and_hidden, ways_in};
pub use ways::Hidden;
