//! The bank and the row of an element as operations: sums of shifts, quotients and remainders by a number of banks,
//! tests of indices against sizes, and indices of what is behind a view. No multiplication is made, and each new value
//! is there as soon as those are that it is made of. Interleaved banks and views are of Nigam and others, PLDI 2020;
//! the operations are this project's.
//! Stands on `dh_plan`, whose operations it puts down.
#![tactic(auto)]

mod dividing;
mod listing;
mod moving;
mod scaling;
mod spanning;
mod spreading;
mod testing;
mod widths;

pub use dividing::{Division, divide};
pub use listing::{OperationList, push_compute, push_constant, push_convert};
pub use moving::{push_dealt, push_moved};
pub use scaling::push_scaled;
pub use spanning::{Span, push_span};
pub use spreading::{RowAndBank, push_or_zero, spread};
pub use testing::push_test;
pub use widths::{bit_length, moved_width};
