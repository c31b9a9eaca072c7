//! Binds the operations of a plan: which port of each bank an operation uses, and which multiplier.
#![tactic(auto)]

mod binder;
mod binding;
mod costs;
mod ledgers;
mod operations;
mod pairs;
mod tables;
mod units;
mod walker;
mod walks;

pub use binder::Binder;
pub use binding::bind;
