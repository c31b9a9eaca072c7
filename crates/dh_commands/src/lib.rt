//! Operations of a plan from straight commands, each at all paths of copies before the next one:
//! assignments, stores, reducers, and the arms of an `if` under guards. Takes a typed command and
//! the values that variables were given in this step; adds its operations and gives variables
//! their values behind it. Stands on `dh_expressions` and below. The rules: docs/LANGUAGE.md,
//! "Copies"; after Nigam and others, PLDI 2020.
//! Linear in the operations that it makes.
#![tactic(auto)]

mod assigning;
mod assignments;
mod buildings;
mod choices;
mod commands;
mod guarding;
mod keeping;
mod storing;
mod testing;

pub use assignments::{Change, Values, no_values};
pub use buildings::Building;
pub use commands::push_command;
pub use testing::test_all;
