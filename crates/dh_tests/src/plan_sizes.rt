//! The sizes of plans of programs that were worked out by hand: first what commands and operators come to, then
//! accesses with the banks that they charge.

use crate::comparing::each_makes;
use crate::texts::LONGEST;
use dh_check::check_without_ports;
use dh_size::plan_size;
use std::alloc::Global;
use std::test::Fail;

/// The size of the plan of a whole program.
fn size_of(alloc: Global, text: &str) -> Result<u64, Fail> {
    let bytes = text.as_bytes();
    if bytes.len() > LONGEST {
        return Err("too long")?;
    }
    let typed = check_without_ports(alloc, bytes)?;
    Ok(plan_size(alloc, &typed)?.size)
}

/// The size of the plan of a whole program, as a text.
fn shown(alloc: Global, text: &str) -> Result<String, Fail> {
    let size = size_of(alloc, text)?;
    Ok(format!(in alloc; "{size}")?)
}

/// Each command counts, the program's block among them, and each operator, cast and reducer; once for each copy.
const COMMANDS: &[(&str, &str)] = &[
    ("decl A: ubit<8>[2];", "1"),
    ("for (let i = 0..0) { let x = 1; }", "4"),
    ("let x: ubit<8> = 3; let y = (x as ubit<4>);", "4"),
    (
        "let x: ubit<8> = 1;\nif (x == 1) { x := 2 } else { x := x + 1 }\n---\nwhile (x < 9) { x := x + 2; }",
        "14",
    ),
    ("for (let i = 0..8) unroll 4 { let x = 1; }", "10"),
];

#[test]
fn commands_and_operators_count(rt: HostRuntime) -> Result<(), Fail> {
    each_makes(&rt, rt.alloc(), COMMANDS, shown)
}

/// In each copy an access counts 1, and 1 more for each bank that it charges; one that shares charges nothing.
const ACCESSES: &[(&str, &str)] = &[
    ("decl A: ubit<8>[2];\nlet x = A[0]; let y = A[0];", "6"),
    (
        "decl A: ubit<8>[2 bank 2];\nfor (let i = 0..2) unroll 2 { let x = A[i]; }",
        "12",
    ),
    ("decl A: ubit<8>[4 bank 2]; A{1}[0] := 1;", "4"),
    (
        "decl A: ubit<8>[4]; for (let i = 0..4) unroll 2 { let x = A[0]; }",
        "10",
    ),
    (
        "decl A: ubit<32>[8 bank 2]; decl B: ubit<32>[8 bank 2]; decl out: ubit<32>[1];\nlet dot: ubit<32> = 0;\nfor (let i: ubit<4> = 0..8) unroll 2 { let v = A[i] * B[i]; } combine { dot += v; }\n---\nout[0] := dot;",
        "30",
    ),
];

#[test]
fn accesses_count_their_banks(rt: HostRuntime) -> Result<(), Fail> {
    each_makes(&rt, rt.alloc(), ACCESSES, shown)
}
