//! Substitutes the calls of a program: what it gives has no functions and means the same.
//! Functions are not built yet, so each program that is ready is flat as it stands, and no memory is taken. Stands on
//! `dh_plan`, of which it has the statement, and on `dh_tree`.
#![tactic(auto)]

mod inlining;

pub use inlining::{Flat, inline};
