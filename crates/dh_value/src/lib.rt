//! Arithmetic on words of 1 to 64 bits. Every operation is told by the whole numbers that its
//! operands stand for, in `specs/Words.antt` and `specs/Operations.antt`. Beside them the contents of
//! memories, as bits of words.
//! Stands on nothing.
#![tactic(auto)]

mod bits;
mod contents;
mod kinds;
mod laws;
mod operations;
mod operators;
mod words;

pub use contents::Memories;
pub use kinds::{Kind, width};
pub use laws::{operations_give_words, values_stay_in_words};
pub use operations::binary;
pub use operators::Op;
pub use words::{Word, cast, fits, number};
