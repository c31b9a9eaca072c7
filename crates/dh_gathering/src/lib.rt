//! The phases of a program as nodes of a plan, each straight one and each test as a block. Takes a
//! typed program with the registers of its variables; gives nodes, one list of operations, where
//! each block begins in it, and the kinds of the registers. Stands on `dh_commands` and below, and
//! on `dh_phases`, which gathers the phases. The rules: docs/LANGUAGE.md, "Steps". Linear in the
//! program and the operations that it makes.
#![tactic(auto)]

mod blocks;
mod cutting;
mod laws;
mod making;
mod nodes;
mod registers;

pub use blocks::Made;
pub use cutting::cut;
pub use laws::{counters_are_apart, made_blocks_are_whole, registers_follow};
pub use making::{Phased, phases_made};
pub use nodes::nodes_in;
pub use registers::registers_of;
