//! The accesses of a program: which of them may meet.
//! Stands on `dh_plan`, whose tree of accesses it makes, and on the definitions of `dh_meets`.
#![tactic(auto)]

mod meeting;

pub use meeting::meets_of;
