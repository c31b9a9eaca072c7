//! The pass over kinds: it gives each expression its kind, and refuses a program that breaks a rule on
//! kinds.
//! Stands on `dh_tree`. docs/LANGUAGE.md tells which kinds go together.
#![tactic(auto)]

mod commands;
mod expressions;
mod facts;
mod finding;
mod functions;
mod judging;
mod keeping;
mod operands;
mod parts;
mod programs;
mod sorts;
mod views;
mod walks;

pub use programs::type_program;
