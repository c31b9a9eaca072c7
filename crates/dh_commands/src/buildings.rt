//! What grows while a plan is made.

use crate::assignments::Values;
use dh_expressions::{Accesses, Draft};

/// What grows while a plan is made.
#[derive(Drop)]
pub struct Building {
    /// The operations so far.
    pub draft: Draft,
    /// The accesses of the program.
    pub accesses: Accesses,
    /// What variables were given in this step.
    pub values: Values,
}
