//! What is got is what is wanted: one function for each kind of value, which names the case that fails.

use std::alloc::Global;
use std::process::Abort;
use std::test::Fail;

/// The text that is got is the one that is wanted.
pub fn same(rt: &impl Abort, got: &str, want: &str, at: &str) {
    assert_eq!(rt; got, want, "at {at}");
}

/// The bytes that are got are those of the text that is wanted.
pub fn same_bytes(rt: &impl Abort, got: &[u8], want: &str, at: &str) {
    assert_eq!(rt; got, want.as_bytes(), "at {at}");
}

/// The number that is got is the one that is wanted.
pub fn same_number(rt: &impl Abort, got: u64, want: u64, at: &str) {
    assert_eq!(rt; got, want, "at {at}");
}

/// What is said here is the case.
pub fn holds(rt: &impl Abort, held: bool, at: &str) {
    assert!(rt; held, "at {at}");
}

/// Of each text of a table is made the one beside it.
pub fn each_makes(
    rt: &impl Abort,
    alloc: Global,
    table: &[(&str, &str)],
    made: fn(Global, &str) -> Result<String, Fail>,
) -> Result<(), Fail>
    requires { IsAlwaysCallable made }
{
    for (text, want) in table {
        let got = made(alloc, text)?;
        same(rt, got.as_str(), want, text);
    }
    Ok(())
}
