//! Programs as flat code: the operations of all expressions in one array, the commands in another,
//! and the variables in numbered slots, one for each copy. How code is made from a program's tree,
//! and what it does in a logical step. Stands on `dh_ways`, `dh_viewing`, `dh_extents`, `dh_meaning`,
//! `dh_tree`, `dh_value` and `dh_base`.
#![tactic(auto)]

mod codes;
mod evaluating;
mod flattening;
mod keeping;
mod operands;
mod passing;
mod places;
mod running;
mod spending;
mod spots;
mod straight;
mod worths;

pub use codes::{Code, FlatExpression};
pub use evaluating::{StepContext, StepStop};
pub use flattening::{Names, first_hidden, flat, flatten_commands, is_same, memory_of, way_of};
pub use operands::{entity_of, extension, kind_found, literal, slot, truth};
pub use passing::offsets_taken;
pub use places::{Places, VariableSlots, place_all, place_at, place_behind, place_of};
pub use running::{StepState, UndoEntry, Write, decide, run, set, set_slot, undo, write_all};
pub use spending::{Bank, release, unused};
