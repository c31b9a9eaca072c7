//! Programs, their memories and what they mean: the tree, the table of memories, kinds, and in
//! `specs/` the checked semantics of the language.
//! Stands on `dh_value` and `dh_base`. docs/LANGUAGE.md tells the language.
#![tactic(auto)]

mod breaches;
mod laws;
mod loads;
mod names;
mod tables;
mod trees;
mod viewing;

pub use breaches::{Breach, is_before, keep_least};
pub use dh_value::{Kind, Memories};
pub use laws::{
    elements_lie_in_banks, kept_is_least, kept_programs_have_tables, lists_are_seen_in_order,
    resolving_keeps_forms, typing_keeps_programs,
};
pub use loads::loads_are_largest_sums;
pub use tables::{Dim, MemEntry, MemTable, Name, Shape, copy_table, element_count, is_table};
pub use trees::{
    Command, CommandForm, Counter, Decl, DimPlaces, Entity, Expr, ExprForm, Function, LoopHeader,
    Named, Parameter, Ref, ShapePlaces, Sides, Sort, Tree, Typed, ViewForm, has_dashes,
};
pub use viewing::{ViewMap, ViewSort, Viewed};
