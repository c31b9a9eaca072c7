//! Programs of any length, and what the passes make of them.

use crate::texts::repeated;
use std::alloc::{AllocError, Global};

/// The second part reads what the first wrote.
pub const PROGRAM: &str =
    "decl A: ubit<32>[1]; decl B: ubit<32>[1]; A[0] := 7 --- B[0] := A[0] + 1;";

/// Zeros for both memories.
pub const ZEROS: &str = "{\"A\":{\"data\":[0]},\"B\":{\"data\":[0]}}";

/// The read of the memory takes its one port, and then the write wants it.
pub const READ_AND_WRITTEN: &str = "decl A: ubit<32>[1]; A[0] := A[0] + 1;";

/// The index is computed, and lies outside the memory.
pub const OUTSIDE: &str = "decl A: ubit<32>[1]; let x = A[0] + 1 --- A[x] := 1;";

/// A zero for its memory.
pub const ZERO: &str = "{\"A\":{\"data\":[0]}}";

/// A program of so many stores, of n to the memory `An`, each in a logical step of its own.
pub fn stores(alloc: Global, count: u64) -> Result<String, AllocError> {
    let mut text = String::new(alloc);
    for n in 0..count {
        write!(text, "decl A{n}: ubit<32>[1];\n")?;
    }
    for n in 0..count {
        write!(text, "A{n}[0] := {n} ---\n")?;
    }
    Ok(text)
}

/// A data file of a zero for each of these memories.
pub fn zeros(alloc: Global, count: u64) -> Result<String, AllocError> {
    let mut text = String::from_str(alloc, "{\"A0\":{\"data\":[0]}")?;
    for n in 1..count {
        write!(text, ",\"A{n}\":{{\"data\":[0]}}")?;
    }
    text.push_str("}")?;
    Ok(text)
}

/// A program of 256 copies of so many assignments to a variable: its plan has the size 514 + 512 * count.
pub fn copied(alloc: Global, count: u64) -> Result<String, AllocError> {
    let head = "for (let i = 0..256) unroll 256 { let v: ubit<32> = 0;";
    let mut text = repeated(alloc, head, " v := v + 1;", count)?;
    text.push_str(" }")?;
    Ok(text)
}
