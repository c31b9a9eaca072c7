//! The phases of programs, by the numbers of their commands.

use crate::comparing::{each_makes, same_number};
use crate::texts::{LONGEST, stores};
use dh_check::check_without_ports;
use dh_phases::{NumberedCommand, Phase, phases};
use std::alloc::{AllocError, Global};
use std::fmt::Write;
use std::test::Fail;

/// Writes commands by their numbers.
fn write_commands(out: &mut String, commands: &[NumberedCommand<'_>]) -> Result<(), AllocError> {
    for (i, numbered) in commands.iter().enumerate() {
        if i > 0 {
            out.push_str(", ")?;
        }
        write!(out, "{}", numbered.command.id)?;
    }
    Ok(())
}

/// Writes a phase, its commands by their numbers.
#[cycle(writing)]
fn write_phase(out: &mut String, phase: &Phase<'_>) -> Result<(), AllocError> {
    match phase {
        Phase::Straight { commands } => {
            out.push_str("Straight { commands: [")?;
            write_commands(out, commands.as_slice())?;
            out.push_str("]")?;
        }
        Phase::Turns {
            command,
            count,
            body,
            ..
        } => {
            write!(
                out,
                "Turns {{ command: {}, count: {count}",
                command.command.id
            )?;
            out.push_str(", body: ")?;
            write_phases(out, body.as_slice())?;
        }
        Phase::Loop { command, body, .. } => {
            write!(out, "Loop {{ command: {}, body: ", command.command.id)?;
            write_phases(out, body.as_slice())?;
        }
        Phase::Choice {
            command,
            then,
            other,
            ..
        } => {
            write!(out, "Choice {{ command: {}, then: ", command.command.id)?;
            write_phases(out, then.as_slice())?;
            out.push_str(", other: ")?;
            write_phases(out, other.as_slice())?;
        }
    }
    out.push_str(" }")
}

/// Writes phases in order.
#[cycle(writing)]
fn write_phases(out: &mut String, phases: &[Phase<'_>]) -> Result<(), AllocError> {
    out.push_str("[")?;
    for (i, phase) in phases.iter().enumerate() {
        if i > 0 {
            out.push_str(", ")?;
        }
        write_phase(out, phase)?;
    }
    out.push_str("]")
}

/// The phases of a whole program, as a text, and how many they are.
fn told(alloc: Global, text: &str) -> Result<(String, u64), Fail> {
    let bytes = text.as_bytes();
    if bytes.len() > LONGEST {
        return Err("too long")?;
    }
    let typed = check_without_ports(alloc, bytes)?;
    let whole = typed.tree().body.id;
    let phases = phases(alloc, &typed, whole, &[])?;
    let mut out = String::new(alloc);
    write_phases(&mut out, phases.as_slice())?;
    Ok((out, phases.len() as u64))
}

/// The phases of a whole program, as a text.
fn shown(alloc: Global, text: &str) -> Result<String, Fail> {
    let (shown, _) = told(alloc, text)?;
    Ok(shown)
}

/// The commands are numbered in text order: the program is 0, and blocks have numbers too.
const STRAIGHT: &[(&str, &str)] = &[
    ("", "[]"),
    (
        "let x = 1; { let y = 2 } --- let z = 3",
        "[Straight { commands: [1, 3] }, Straight { commands: [4] }]",
    ),
    (
        "let x = 1 --- for (let i = 0..4) { x := 1 --- x := 2 }",
        "[Straight { commands: [1] }, Turns { command: 2, count: 4, body: [Straight { commands: [4] }, Straight { commands: [5] }] }]",
    ),
    ("for (let i = 2..2) { let x = 1 }", "[]"),
    (
        "let x = 1 --- if (x == 1) { while (x < 3) { x := x + 1 } } else { x := 5 }",
        "[Straight { commands: [1] }, Choice { command: 2, then: [Loop { command: 4, body: [Straight { commands: [6] }] }], other: [Straight { commands: [8] }] }]",
    ),
    (
        "if (true) { let x = 1 }; let y = 2",
        "[Straight { commands: [1, 4] }]",
    ),
];

#[test]
fn straight_commands_join_and_others_do_not(rt: HostRuntime) -> Result<(), Fail> {
    each_makes(&rt, rt.alloc(), STRAIGHT, shown)
}

/// All copies of a loop are done in one turn.
const COPIES: &[(&str, &str)] = &[
    (
        "for (let i = 0..6) unroll 2 { let x = i }",
        "[Turns { command: 1, count: 3, body: [Straight { commands: [3] }] }]",
    ),
    (
        "for (let i = 0..4) unroll 4 { let x = 1 --- let y = 2 }",
        "[Turns { command: 1, count: 1, body: [Straight { commands: [3] }, Straight { commands: [4] }] }]",
    ),
    (
        "for (let i = 0..4) unroll 2 { for (let j = 0..9) unroll 3 { let x = 1 } }",
        "[Turns { command: 1, count: 2, body: [Turns { command: 3, count: 3, body: [Straight { commands: [5] }] }] }]",
    ),
    ("for (let i = 3..3) unroll 2 { let x = 1 }", "[]"),
];

#[test]
fn copies_share_their_turns(rt: HostRuntime) -> Result<(), Fail> {
    each_makes(&rt, rt.alloc(), COPIES, shown)
}

/// The commands of `combine` join the last phase of the body where that is straight, and are a phase of their own
/// where it is not.
const COMBINED: &[(&str, &str)] = &[
    (
        "let s = 0; for (let i = 0..8) unroll 2 { let v = 1 } combine { s += v }",
        "[Straight { commands: [1] }, Turns { command: 2, count: 4, body: [Straight { commands: [4, 6] }] }]",
    ),
    (
        "let s = 0; for (let i = 0..3) { let v = 1 } combine { s += v; s -= v }",
        "[Straight { commands: [1] }, Turns { command: 2, count: 3, body: [Straight { commands: [4, 6, 7] }] }]",
    ),
    (
        "let s = 0; for (let i = 0..4) unroll 2 { let v = 1 --- v := 2 } combine { s += v }",
        "[Straight { commands: [1] }, Turns { command: 2, count: 2, body: [Straight { commands: [4] }, Straight { commands: [5, 7] }] }]",
    ),
    (
        "let s = 0; for (let i = 0..4) unroll 2 { let v = 1 --- for (let j = 0..3) { v := 2 } } combine { s += v }",
        "[Straight { commands: [1] }, Turns { command: 2, count: 2, body: [Straight { commands: [4] }, Turns { command: 5, count: 3, body: [Straight { commands: [7] }] }, Straight { commands: [9] }] }]",
    ),
    (
        "for (let i = 0..4) unroll 2 { let v = 1 } combine { }",
        "[Turns { command: 1, count: 2, body: [Straight { commands: [3] }] }]",
    ),
];

#[test]
fn combine_joins_a_straight_end_alone(rt: HostRuntime) -> Result<(), Fail> {
    each_makes(&rt, rt.alloc(), COMBINED, shown)
}

/// A declaration of a memory has no phase: the commands round it are one, and a part of it alone is none.
const MEMORIES: &[(&str, &str)] = &[
    ("let m: ubit<8>[4]", "[]"),
    (
        "let x = 1; let m: ubit<8>[4]; let y = 2",
        "[Straight { commands: [1, 3] }]",
    ),
    (
        "let x = 1 --- let m: ubit<8>[4] --- m[0] := 3",
        "[Straight { commands: [1] }, Straight { commands: [3] }]",
    ),
];

#[test]
fn local_memories_have_no_phase(rt: HostRuntime) -> Result<(), Fail> {
    each_makes(&rt, rt.alloc(), MEMORIES, shown)
}

#[test]
fn a_long_program_has_a_phase_for_each_part(rt: HostRuntime) -> Result<(), Fail> {
    let alloc = rt.alloc();
    let text = stores(alloc, 40_000)?;
    let (_, count) = told(alloc, text.as_str())?;
    same_number(&rt, count, 40_000, "phases");
    Ok(())
}
