//! The top call over files and an output in memory.

use crate::comparing::{holds, same_bytes};
use crate::engines::Idle;
use crate::outside::files_of;
use crate::programs::{OUTSIDE, PROGRAM, READ_AND_WRITTEN, ZERO, ZEROS, copied, stores, zeros};
use dh_app::{Engine, NetEngine, run};
use dh_base::{MemSink, Status};
use std::alloc::{AllocError, Global};
use std::process::Abort;
use std::test::Fail;

/// The words of a call.
fn words_of(alloc: Global, words: &[&str]) -> Result<Vec<String>, AllocError> {
    let mut list = Vec::new(alloc);
    for word in words {
        list.push(String::from_str(alloc, word)?)?;
    }
    Ok(list)
}

/// How the call of these words ends, and what it wrote, with the file `a` of the program and `b` of the data. The
/// reads and the writes of these numbers fail.
fn call<E: Engine>(
    alloc: Global,
    words: &[&str],
    contents: (&str, &str),
    failing: (&[u64], &[u64]),
    engine: &mut E,
) -> Result<(Status, MemSink), AllocError> {
    let list = words_of(alloc, words)?;
    let mut files = files_of(alloc, &[("a", contents.0), ("b", contents.1)], failing.0)?;
    let mut out = MemSink::new(alloc, Vec::from_slice(alloc, failing.1)?, 10);
    let status = run(alloc, list.as_slice(), &mut files, &mut out, engine);
    Ok((status, out))
}

/// The call of these words, with the engine of the program, ends so and writes this text.
fn ends(
    rt: &impl Abort,
    alloc: Global,
    words: &[&str],
    contents: (&str, &str),
    failing: (&[u64], &[u64]),
    ending: (Status, &str),
) -> Result<(), Fail> {
    let mut engine = NetEngine::new(alloc);
    let (status, out) = call(alloc, words, contents, failing, &mut engine)?;
    let (want, text) = ending;
    assert_eq!(rt; status, want, "at {words:?} {failing:?} for {text}");
    same_bytes(rt, out.bytes(), text, text);
    Ok(())
}

const CHECK: &[&str] = &["check", "a"];

const LOWER: &[&str] = &["lower", "a"];

const SIMULATE: &[&str] = &["simulate", "a", "b"];

const TWO_CLOCKS: &[&str] = &["simulate", "a", "b", "--clocks", "2"];

const INTERPRET: &[&str] = &["interpret", "a", "b"];

const UNCHECKED: &[&str] = &["interpret", "a", "b", "--steps", "5", "--unchecked"];

const SIMULATED: &str =
    "{\"clocks\":3,\"memories\":{\"A\":{\"data\":[7],\"format\":{\"is_signed\":false,\"numeric_type\":\"bitnum\",\"width\":32}},\"B\":{\"data\":[8],\"format\":{\"is_signed\":false,\"numeric_type\":\"bitnum\",\"width\":32}}},\"outcome\":\"done\",\"steps\":2}\n";

const GOING: &str =
    "{\"clocks\":2,\"memories\":{\"A\":{\"data\":[7],\"format\":{\"is_signed\":false,\"numeric_type\":\"bitnum\",\"width\":32}},\"B\":{\"data\":[0],\"format\":{\"is_signed\":false,\"numeric_type\":\"bitnum\",\"width\":32}}},\"outcome\":\"going\",\"steps\":1}\n";

const INTERPRETED: &str =
    "{\"memories\":{\"A\":{\"data\":[7],\"format\":{\"is_signed\":false,\"numeric_type\":\"bitnum\",\"width\":32}},\"B\":{\"data\":[8],\"format\":{\"is_signed\":false,\"numeric_type\":\"bitnum\",\"width\":32}}},\"outcome\":\"done\",\"steps\":2}\n";

const STUCK: &str =
    "{\"memories\":{\"A\":{\"data\":[0],\"format\":{\"is_signed\":false,\"numeric_type\":\"bitnum\",\"width\":32}}},\"outcome\":\"stuck A 0 1:22\",\"steps\":0}\n";

const FAULTED: &str =
    "{\"memories\":{\"A\":{\"data\":[0],\"format\":{\"is_signed\":false,\"numeric_type\":\"bitnum\",\"width\":32}}},\"outcome\":\"fault OutOfRange 1:43\",\"steps\":1}\n";

/// Words, the program and the data, the status, and what is written.
const JOBS: &[(&[&str], (&str, &str), (Status, &str))] = &[
    (CHECK, (PROGRAM, ""), (Status::Done, "ok\n")),
    (
        CHECK,
        ("decl A: ubit<32>[1048577];", ""),
        (Status::TooLarge, "too large Elements 1048577\n"),
    ),
    (
        SIMULATE,
        (READ_AND_WRITTEN, ZERO),
        (Status::Refused, "refused K19 PortsSpent 1:22\n"),
    ),
    (
        SIMULATE,
        (PROGRAM, ZERO),
        (Status::BadData, "bad data Missing \"B\"\n"),
    ),
    (SIMULATE, (PROGRAM, ZEROS), (Status::Done, SIMULATED)),
    (TWO_CLOCKS, (PROGRAM, ZEROS), (Status::Going, GOING)),
    (INTERPRET, (PROGRAM, ZEROS), (Status::Done, INTERPRETED)),
    (UNCHECKED, (READ_AND_WRITTEN, ZERO), (Status::Stuck, STUCK)),
    (UNCHECKED, (OUTSIDE, ZERO), (Status::Faulted, FAULTED)),
];

#[test]
fn each_job_ends_with_its_line(rt: HostRuntime) -> Result<(), Fail> {
    for (words, contents, ending) in JOBS {
        ends(&rt, rt.alloc(), words, *contents, (&[], &[]), *ending)?;
    }
    Ok(())
}

/// Words, the reads and the writes that fail, the status, and what is written.
const FAILURES: &[(&[&str], (&[u64], &[u64]), (Status, &str))] = &[
    (SIMULATE, (&[1], &[]), (Status::ReadFault, "")),
    (SIMULATE, (&[2], &[]), (Status::ReadFault, "")),
    (INTERPRET, (&[2], &[]), (Status::ReadFault, "")),
    (LOWER, (&[1], &[]), (Status::ReadFault, "")),
    (SIMULATE, (&[], &[1]), (Status::WriteFault, "{\"clocks\":")),
    (INTERPRET, (&[], &[1]), (Status::WriteFault, "{\"memories")),
    (LOWER, (&[], &[1]), (Status::WriteFault, "// dahlia ")),
];

#[test]
fn a_read_that_fails_writes_nothing_and_a_write_that_fails_a_prefix(
    rt: HostRuntime,
) -> Result<(), Fail> {
    for (words, failing, ending) in FAILURES {
        ends(&rt, rt.alloc(), words, (PROGRAM, ZEROS), *failing, *ending)?;
    }
    Ok(())
}

/// What is reported of no clock.
const UNMOVED: &str =
    "{\"clocks\":0,\"memories\":{\"A\":{\"data\":[0],\"format\":{\"is_signed\":false,\"numeric_type\":\"bitnum\",\"width\":32}},\"B\":{\"data\":[0],\"format\":{\"is_signed\":false,\"numeric_type\":\"bitnum\",\"width\":32}}},\"outcome\":\"going\",\"steps\":0}\n";

#[test]
fn the_report_is_the_engines_answer(rt: HostRuntime) -> Result<(), Fail> {
    let alloc = rt.alloc();
    let mut engine = Idle::new(alloc);
    let (status, out) = call(alloc, SIMULATE, (PROGRAM, ZEROS), (&[], &[]), &mut engine)?;
    holds(&rt, status == Status::Going, "the status");
    same_bytes(&rt, out.bytes(), UNMOVED, "the report");
    Ok(())
}

/// The check has no limit on plans; the jobs that compile come to it before they read their data.
const LARGE: &[(&[&str], (Status, &str))] = &[
    (CHECK, (Status::Done, "ok\n")),
    (LOWER, (Status::TooLarge, "too large Plan 200194\n")),
    (SIMULATE, (Status::TooLarge, "too large Plan 200194\n")),
];

#[test]
fn a_plan_is_too_large_to_compile(rt: HostRuntime) -> Result<(), Fail> {
    let alloc = rt.alloc();
    let large = copied(alloc, 390)?;
    for (words, ending) in LARGE {
        ends(&rt, alloc, words, (large.as_str(), ""), (&[], &[]), *ending)?;
    }
    Ok(())
}

/// The call of these words, with the engine of the program, writes a text that starts so and has so many bytes.
fn starts(
    rt: &impl Abort,
    alloc: Global,
    words: &[&str],
    contents: (&str, &str),
    start: &str,
    long: usize,
) -> Result<(), Fail> {
    let mut engine = NetEngine::new(alloc);
    let (status, out) = call(alloc, words, contents, (&[], &[]), &mut engine)?;
    holds(rt, status == Status::Done, start);
    holds(rt, out.bytes().starts_with(start.as_bytes()), start);
    holds(rt, out.bytes().len() >= long, start);
    Ok(())
}

/// Words, and of a program of 1,100 memories, all of which are in the data and in the report, how what is written
/// starts and how many bytes it has at least.
const LONG: &[(&[&str], &str, usize)] = &[
    (CHECK, "ok\n", 3),
    (LOWER, "// dahlia netlist 1\n", 100_000),
    (
        SIMULATE,
        "{\"clocks\":1100,\"memories\":{\"A0\":{\"data\":[0],\"format\":{\"is_signed\":false,\"numeric_type\":\"bitnum\",\"width\":32}},\"A1\":{",
        90_000,
    ),
    (
        INTERPRET,
        "{\"memories\":{\"A0\":{\"data\":[0],\"format\":{\"is_signed\":false,\"numeric_type\":\"bitnum\",\"width\":32}},\"A1\":{",
        90_000,
    ),
];

#[test]
fn long_programs_end_with_their_reports(rt: HostRuntime) -> Result<(), Fail> {
    let alloc = rt.alloc();
    let program = stores(alloc, 1_100)?;
    let data = zeros(alloc, 1_100)?;
    for (words, start, long) in LONG {
        starts(
            &rt,
            alloc,
            words,
            (program.as_str(), data.as_str()),
            start,
            *long,
        )?;
    }
    Ok(())
}
