//! A block of a plan whole: that operations which do a phase of a program, command by command, are a block that does
//! it, from any memories and whatever the registers hold.
#![tactic(auto)]

mod laws;

pub use laws::{leaders_come_first, made_blocks_do, made_tests_do, programs_tell_blocks};
