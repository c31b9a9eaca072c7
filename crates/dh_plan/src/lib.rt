//! The plan of a program: what the compiler makes of its phases before there is a netlist. Blocks of operations,
//! nodes that say in which order they are done, and which of their accesses may meet; the graph of states, the
//! schedule and the binding of ports that are made of it.
//! In `specs/` stand the meaning of a plan, what each pass of the compiler states of its result, and what ties the
//! levels to the program and to the netlist.
#![tactic(auto)]

mod examples;
mod graphs;
mod laws;
mod operations;
mod plans;
mod schedules;

pub use dh_tree::{ViewMap, ViewSort};
pub use examples::{
    choice_plan_chooses, elements_are_reached, endless_plan_goes_on, faulting_plan_faults,
    first_fault_is_reported, first_plan_runs, fold_plan_folds, sizes_are_counted,
    storing_plan_does_its_program, storing_plan_passes, threads_plan_ends,
};
pub use graphs::{Decision, Graph, Group, State};
pub use laws::{
    block_values_fit, blocks_do_by_values, blocks_have_one_solution, least_clocks_are_legal,
    passes_compose, phases_make_runs, pieces_come_in_order, plans_play_programs, plans_run_alike,
    registers_have_roles, runs_make_steps, ways_are_passed,
};
pub use operations::{ApartReach, Operation, OperationForm, PlanBlock, Reach, ReachStep};
pub use plans::{Meets, Node, Plan};
pub use schedules::{Binding, Limits, Schedule};
