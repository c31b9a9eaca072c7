//! When the operations of whole commands are there: each value at the clock of its level, and none later than the
//! greatest level of a read; so that a block is as long as its phase. These are laws on the exact relations that the
//! contracts of `dh_commands` state (`MadeCommand` and others). Stands on `dh_laid` and below.
#![tactic(auto)]

mod laws;

pub use laws::blocks_are_as_long_as_their_phases;
