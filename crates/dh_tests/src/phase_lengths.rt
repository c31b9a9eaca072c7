//! The lengths of phases in clocks, of programs that were worked out by hand or simulated elsewhere.

use crate::comparing::each_makes;
use crate::texts::LONGEST;
use dh_check::check_without_ports;
use dh_lengths::phase_lengths;
use std::alloc::Global;
use std::test::Fail;

/// The lengths of the phases of a whole program.
fn lengths_of(alloc: Global, text: &str) -> Result<Vec<u64>, Fail> {
    let bytes = text.as_bytes();
    if bytes.len() > LONGEST {
        return Err("too long")?;
    }
    let typed = check_without_ports(alloc, bytes)?;
    Ok(phase_lengths(alloc, &typed)?)
}

/// The lengths of the phases of a whole program, as a text.
fn shown(alloc: Global, text: &str) -> Result<String, Fail> {
    let lengths = lengths_of(alloc, text)?;
    Ok(format!(in alloc; "{lengths:?}")?)
}

/// A step without reads takes one clock, and reads that follow one another one more each.
const READS: &[(&str, &str)] = &[
    ("decl A: ubit<8>[2];", "[]"),
    ("decl A: ubit<8>{2}[2];\nA[0] := 1; A[0] := 2;", "[1]"),
    (
        "decl A: ubit<32>[1]; decl B: ubit<32>[1]; A[0] := 7 --- B[0] := A[0] + 1;",
        "[1, 2]",
    ),
    (
        "decl A: ubit<64>[1];\nlet x = A[0] --- A[0] := x + 1;",
        "[2, 1]",
    ),
    (
        "decl A: ubit<8>[4]; decl B: ubit<8>[1]; decl C: ubit<8>[1];\nC[0] := A[B[0]];",
        "[3]",
    ),
    (
        "decl A: ubit<8>[4];\ndecl B: ubit<8>[1];\nlet i: ubit<8> = 9;\n---\nB[0] := 1; A[i] := 1;",
        "[1, 1]",
    ),
];

#[test]
fn reads_make_phases_longer(rt: HostRuntime) -> Result<(), Fail> {
    each_makes(&rt, rt.alloc(), READS, shown)
}

/// Tests are phases, and the block that joins copies goes on with the last phase of a turn.
const TURNS: &[(&str, &str)] = &[
    (
        "decl A: ubit<32>[8 bank 2]; decl B: ubit<32>[8 bank 2]; decl out: ubit<32>[1];\nlet dot: ubit<32> = 0;\nfor (let i: ubit<4> = 0..8) unroll 2 { let v = A[i] * B[i]; } combine { dot += v; }\n---\nout[0] := dot;",
        "[1, 2, 1]",
    ),
    (
        "decl X: ubit<4>[6]; decl H: ubit<8>[4];\nfor (let i = 0..6) {\nlet b = X[i];\n---\nlet n = H[b];\n---\nH[b] := n + 1;\n}",
        "[2, 2, 1]",
    ),
    (
        "decl A: ubit<8>[1];\nwhile (true) { let x = A[0]; --- A[0] := x + 1; }",
        "[1, 2, 1]",
    ),
    (
        "decl A1: ubit<31>[2];\nA1[1] := 1;\n---\n{\n  let x2: bit<16> = 4;\n  ---\n  let x3: ubit<1> = 1;\n}\nlet x4: bit<63> = 8;\n",
        "[1, 1, 1, 1]",
    ),
    (
        "decl A1: bit<7>{8}[4 bank 4];\nif (true) {\n  let x3: ubit<4> = 6;\n  ---\n  A1[3] := 1;\n} else {\n  let x4 = (1 as ubit<1>);\n}\nA1[0] := 4;\n---\nlet x5: ubit<16> = 2;\n",
        "[1, 1, 1, 1, 1, 1]",
    ),
];

#[test]
fn loops_and_tests_have_their_phases(rt: HostRuntime) -> Result<(), Fail> {
    each_makes(&rt, rt.alloc(), TURNS, shown)
}

/// A read that shares an earlier one has its level; behind an `if`, what an arm sets has the levels of both arms
/// and of the test.
const LEVELS: &[(&str, &str)] = &[
    (
        "decl A: ubit<8>[4];\nlet x = A[0]; if (x == 0) { let y = A[0] }",
        "[2]",
    ),
    (
        "decl A: ubit<8>[4]; decl B: ubit<8>[256];\nlet i: ubit<8> = 0; if (i == 0) { i := A[0] } else { i := 3 }; let z = B[i];",
        "[3]",
    ),
    (
        "decl A: ubit<8>[4]; decl B: ubit<8>[256];\nlet i: ubit<8> = A[0]; if (i == 0) { i := 2 } else { i := 3 }; let z = B[i];",
        "[3]",
    ),
    (
        "decl A1: ubit<63>{8}[8 bank 2];\nA1[3] := 5;\nA1[1] := A1[4];\nlet x2: ubit<7>;\nfor (let i3 = 2..8) unroll 2 {\n  A1[i3 - 2] := x2;\n  let w4: ubit<7> = x2 & x2;\n} combine {\n  x2 -= w4;\n  x2 *= w4;\n}\n---\nlet x5: bool = x2 >= (x2 ^ x2);\n",
        "[2, 1, 1]",
    ),
];

#[test]
fn values_have_levels(rt: HostRuntime) -> Result<(), Fail> {
    each_makes(&rt, rt.alloc(), LEVELS, shown)
}
