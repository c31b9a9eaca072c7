//! The plan of a program: its phases as nodes and blocks of operations, with one read or write for each distinct key of
//! copies, and a probe for each path of an access. Takes a program that is to be compiled. Lists the views of the plan,
//! and puts together what the crates below make: `dh_ways` (ways of views), `dh_gathering` (nodes and blocks), `dh_code`
//! (registers of variables), `dh_events` and `dh_lengths` (scopes and shared reads), `dh_accesses` (which accesses may
//! meet). Linear in the program and its plan.
#![tactic(auto)]

mod sharing;
mod unrolling;
mod viewing;

pub use unrolling::unroll;
