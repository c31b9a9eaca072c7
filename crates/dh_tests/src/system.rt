//! The files and the output of the system, whose bytes are told to no contract.

use crate::comparing::{holds, same_number};
use crate::outside::answers;
use dh_base::{FileFault, Files, Sink, SinkFault};
use dh_system::{RealFiles, StdSink};
use std::test::Fail;
use std::{fs, io};

const FOUR_BYTES: &str = "dahlia_real_files_test";

/// Names, limits, what is answered, and the faults and the bytes taken until then.
const READS: &[(&str, u64, Result<&str, FileFault>, u64, u64)] = &[
    (FOUR_BYTES, 5, Ok("four"), 0, 4),
    (FOUR_BYTES, 4, Ok("four"), 0, 8),
    (FOUR_BYTES, 3, Err(FileFault::TooLong), 0, 12),
    (FOUR_BYTES, 0, Err(FileFault::TooLong), 0, 13),
    ("dahlia_absent", 4, Err(FileFault::Failed), 1, 13),
    (".", 4, Err(FileFault::Failed), 2, 13),
    ("/dev/zero", 9, Err(FileFault::TooLong), 2, 23),
];

#[test]
fn reads_within_limits(rt: HostRuntime) -> Result<(), Fail> {
    fs::write(&rt, FOUR_BYTES, "four")?;
    let mut files = RealFiles::new(&rt);
    for (name, limit, want, faults, taken) in READS {
        let got = files.read(rt.alloc(), name, *limit);
        assert!(rt; answers(&got, want), "{name} at {limit}");
        same_number(&rt, files.faults(), *faults, name);
        same_number(&rt, files.taken(), *taken, name);
    }
    fs::remove_file(&rt, FOUR_BYTES)?;
    Ok(())
}

#[test]
fn writes_to_standard_output(rt: HostRuntime) {
    let mut out = StdSink::new(io::writer(&rt));
    for piece in &["a line\n", "", "another\n"] {
        holds(&rt, out.write(piece.as_bytes()).is_ok(), piece);
        same_number(&rt, out.faults(), 0, piece);
    }
}

/// Pieces, what is answered, and the faults until then, where four bytes are taken.
const WRITES: &[(&str, Result<(), SinkFault>, u64)] = &[
    ("abc", Ok(()), 0),
    ("de", Err(SinkFault::Failed), 1),
    ("", Ok(()), 1),
    ("f", Err(SinkFault::Failed), 2),
];

#[test]
fn fails_where_nothing_is_taken(rt: HostRuntime) {
    let mut room = [0; 4];
    let mut out = StdSink::new(room.as_mut_slice());
    for (piece, want, faults) in WRITES {
        holds(&rt, out.write(piece.as_bytes()) == *want, piece);
        same_number(&rt, out.faults(), *faults, piece);
    }
}
