//! The interpreter: runs the checked semantics of a typed program, one logical step after the
//! other, with the copies of unrolled loops in lockstep. Stands on `dh_phases`, `dh_code`, `dh_ways`,
//! `dh_meaning`, `dh_tree`, `dh_value` and `dh_base`. docs/LANGUAGE.md tells the language.
#![tactic(auto)]

mod holding;
mod interp;
mod lanes;
mod phases;
mod starting;
mod stepping;

pub use interp::Interp;
