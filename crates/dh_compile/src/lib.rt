//! Compiles accepted programs to nets that play them, by the passes one after the other: the size of the plan is
//! counted, the plan is made of the program's phases, its accesses get banks and rows, its operations clocks and
//! ports, its blocks states, and of all that the net is built; in the end the drivers of its ports are joined.
//! Stands on `dh_ports` and the crates of the passes.
#![tactic(auto)]

mod compiling;

pub use compiling::{CompileFault, compile};
