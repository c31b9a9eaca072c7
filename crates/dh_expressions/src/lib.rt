//! Operations of a plan from expressions, at one path of copies at a time: constants, registers,
//! operators, and reads and writes of elements with a probe before each. Copies of a read that
//! have one key are one read, and so are equal reads of one block. Takes a typed program, the
//! registers of its variables, the ways of its views, and of each access the earlier read that it
//! shares; gives operations in one list for all blocks. Stands on `dh_plan`, `dh_code`,
//! `dh_events`, `dh_shape` and below. The rule: docs/LANGUAGE.md, "Copies"; after Nigam and others, PLDI 2020. Linear in
//! the operations that it makes.
#![tactic(auto)]

mod accesses;
mod banks;
mod copies;
mod drafts;
mod elements;
mod iterators;
mod kinds;
mod naming;
mod passages;
mod paths;
mod scenes;
mod tallies;
mod terms;
mod variables;

pub use accesses::{Accesses, Touched, untouched};
pub use copies::AccessAt;
pub use drafts::{
    Draft, name_fault, push, push_compute, push_constant, push_convert, push_old, push_select,
    push_set,
};
pub use elements::{Aim, push_write};
pub use iterators::counter_width;
pub use kinds::{is_read, narrow};
pub use naming::{first_kept, memory_of};
pub use paths::{Level, Paths, copy_at, inside, outside, rank_at};
pub use scenes::{Around, Lane, Scene, Through, guard_at};
pub use terms::{
    Valued, push_aim, push_converted, push_extended, push_held, push_indices, push_operation,
    push_row, push_term, push_variable,
};
pub use variables::{push_shown, slot_at};
