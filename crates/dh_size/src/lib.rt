//! The size of a program's plan, which decides whether it is compiled: its commands, operators, casts and reducers and
//! its accesses with the banks that they charge, each once for each of its copies (`dh_plan/specs/PlanSizes`).
//! Takes a program that is ready; one walk counts commands and operators, and one pass over what happens, in order of
//! evaluation, counts accesses. Linear in the text, but that an access in unrolled loops counts once for each of its
//! copies. Stands on `dh_lengths`, `dh_ports`, `dh_events`, `dh_sound`, `dh_carried`, `dh_ways`, `dh_viewing`,
//! `dh_shape`, `dh_plan`, `dh_meets`, `dh_meaning`, `dh_tree`, `dh_value` and `dh_base`.
#![tactic(auto)]

mod banks;
mod commands;
mod operators;
mod paths;
mod sizes;
mod through;

pub use sizes::{PlanSize, plan_size};
