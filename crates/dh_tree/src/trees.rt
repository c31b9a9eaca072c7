//! The trees of programs, as they are written.
//!
//! A number that a rule can name keeps its place in a field beside it, whose name is the number's
//! and `_place`. The places of a type's parts stand beside its shape, so that two shapes are
//! equal whatever their places are.

mod commands;
mod counters;
mod dividing;
mod expressions;
mod memories;
mod named;
mod programs;
mod sorts;
mod typed;

pub use commands::{Command, CommandForm, LoopHeader, Sides, ViewForm};
pub use counters::Counter;
pub use dividing::has_dashes;
pub use expressions::{Expr, ExprForm, Ref};
pub use named::Named;
pub use programs::{Decl, DimPlaces, Entity, Function, Parameter, ShapePlaces, Sort, Tree};
pub use typed::Typed;
