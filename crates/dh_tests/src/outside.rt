//! Files and an output in memory.

use crate::comparing::{holds, same_bytes, same_number};
use dh_base::{FileFault, Files, MemFiles, MemSink, Sink, SinkFault};
use std::alloc::{AllocError, Global};
use std::test::Fail;

/// The entry of a file of this name and text.
fn entry_of(alloc: Global, name: &str, text: &str) -> Result<(String, Vec<u8>), AllocError> {
    let bytes = Vec::from_slice(alloc, text.as_bytes())?;
    Ok((String::from_str(alloc, name)?, bytes))
}

/// A file for each name and text.
pub fn files_of(
    alloc: Global,
    named: &[(&str, &str)],
    failing: &[u64],
) -> Result<MemFiles, AllocError> {
    let mut entries = Vec::new(alloc);
    for (name, text) in named {
        entries.push(entry_of(alloc, name, text)?)?;
    }
    Ok(MemFiles::new(entries, Vec::from_slice(alloc, failing)?))
}

/// Whether a read answers the bytes of this text, or this fault.
pub fn answers(got: &Result<Vec<u8>, FileFault>, want: &Result<&str, FileFault>) -> bool {
    match (got, want) {
        (Ok(bytes), Ok(text)) => bytes.as_slice() == text.as_bytes(),
        (Err(fault), Err(told)) => fault == told,
        _ => false,
    }
}

/// Names, limits, and what is answered.
const READS: &[(&str, u64, Result<&str, FileFault>)] = &[
    ("twice", 5, Ok("first")),
    ("twice", 5, Err(FileFault::Failed)),
    ("absent", 5, Err(FileFault::Failed)),
    ("twice", 4, Err(FileFault::TooLong)),
    ("none", 0, Ok("")),
    ("twice", 5, Err(FileFault::Failed)),
    ("twice", 5, Ok("first")),
];

#[test]
fn files_answer_in_order_of_calls(rt: HostRuntime) -> Result<(), Fail> {
    let alloc = rt.alloc();
    let named = [("twice", "first"), ("twice", "second"), ("none", "")];
    let mut files = files_of(alloc, &named, &[2, 6])?;
    for (name, limit, want) in READS {
        let got = files.read(alloc, name, *limit);
        assert!(rt; answers(&got, want), "{name} at {limit}");
    }
    Ok(())
}

/// The entry of file n, of so many bytes.
fn numbered_entry(alloc: Global, n: u64, length: usize) -> Result<(String, Vec<u8>), AllocError> {
    let bytes = vec![in alloc; b'a'; length]?;
    Ok((format!(in alloc; "file {n}")?, bytes))
}

/// File n of 200 has n times 1,000 bytes.
fn numbered_files(alloc: Global) -> Result<MemFiles, AllocError> {
    let mut entries = Vec::new(alloc);
    for n in 0..200 {
        entries.push(numbered_entry(alloc, n, n as usize * 1_000)?)?;
    }
    Ok(MemFiles::new(entries, Vec::new(alloc)))
}

/// The number of bytes of file n, read under this limit.
fn length_of(alloc: Global, files: &mut MemFiles, n: u64, limit: u64) -> Result<u64, Fail> {
    let name = format!(in alloc; "file {n}")?;
    let bytes = files.read(alloc, name.as_str(), limit)?;
    Ok(bytes.len() as u64)
}

#[test]
fn many_and_long_files_are_read(rt: HostRuntime) -> Result<(), Fail> {
    let alloc = rt.alloc();
    let mut files = numbered_files(alloc)?;
    for n in 0..200 {
        let length = length_of(alloc, &mut files, n, n * 1_000)?;
        assert!(rt; length == n * 1_000, "{length} of {n}");
    }
    Ok(())
}

/// Pieces, what is answered, and what is written then.
const PIECES: &[(&str, Result<(), SinkFault>, &str)] = &[
    ("0123456789abc", Err(SinkFault::Failed), "0123456789"),
    (" and on", Ok(()), "0123456789 and on"),
    ("!", Err(SinkFault::Failed), "0123456789 and on!"),
];

#[test]
fn pieces_are_written_in_order_of_calls(rt: HostRuntime) -> Result<(), Fail> {
    let failing = Vec::from_slice(rt.alloc(), &[1, 3])?;
    let mut sink = MemSink::new(rt.alloc(), failing, 10);
    for (piece, want, written) in PIECES {
        holds(&rt, sink.write(piece.as_bytes()) == *want, piece);
        same_bytes(&rt, sink.bytes(), written, piece);
    }
    Ok(())
}

/// Writes this piece so many times. Fails where a write does.
fn write_times(sink: &mut MemSink, piece: &[u8], times: u64) -> Result<(), SinkFault> {
    for _ in 0..times {
        sink.write(piece)?;
    }
    Ok(())
}

/// One piece of 300,000 bytes, then 10,000 of 100.
#[test]
fn many_and_long_pieces_are_written(rt: HostRuntime) -> Result<(), Fail> {
    let mut sink = MemSink::new(rt.alloc(), Vec::new(rt.alloc()), 0);
    let long = vec![in rt.alloc(); b'a'; 300_000]?;
    holds(&rt, sink.write(long.as_slice()).is_ok(), "the long piece");
    holds(
        &rt,
        write_times(&mut sink, &[b'b'; 100], 10_000).is_ok(),
        "the short pieces",
    );
    same_number(&rt, sink.bytes().len() as u64, 1_300_000, "bytes");
    holds(&rt, sink.bytes().first() == Some(&b'a'), "the first byte");
    holds(&rt, sink.bytes().last() == Some(&b'b'), "the last byte");
    Ok(())
}
