//! The schedule of a plan: at which clock of its step each operation stands, and how long each block is.
//! Takes a plan in which operations take earlier values of their blocks, and gives each operation the least clock
//! that what it takes, the limits and the operations before it allow (`schedule`); and judges whether a schedule is
//! legal (`legal`). Stands on `dh_plan`, whose specs/LegalSchedules tells what both say.
//! Rule: list scheduling, in the order of operations; the limits are this project's choice.
#![tactic(auto)]

mod chains;
mod counting;
mod filling;
mod judging;
mod kinds;
mod needs;
mod scheduling;
mod taking;

pub use judging::legal;
pub use scheduling::schedule;
