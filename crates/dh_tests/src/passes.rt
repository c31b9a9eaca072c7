//! The passes from a text to its kinds and shapes, at a large size: each answers where memory is ample.
//! `check` and what it calls are tried at the greatest size by `conformance/` (`source-of-stores`),
//! programs to compile by the tests of `dh_app`, and `check_without_ports` beside the phases.
//! Programs that are refused are tried by `conformance/` too.

use crate::comparing::{holds, same_number};
use crate::texts::{repeated, typed_of};
use dh_shape::within;
use dh_views::shapes;
use std::test::Fail;

/// Each line declares a memory, an iterator and a variable.
#[test]
fn names_and_kinds_of_a_long_text(rt: HostRuntime) -> Result<(), Fail> {
    let alloc = rt.alloc();
    let line = "{ let m: ubit<8>[3]; for (let i = 0..3) { let x = m[i] } } ---\n";
    let text = repeated(alloc, "", line, 10_000)?;
    let typed = typed_of(alloc, text.as_str())?;
    same_number(&rt, typed.tree().entities.len() as u64, 30_000, "entities");
    same_number(&rt, typed.memories().len() as u64, 10_000, "memories");
    holds(
        &rt,
        typed.memory_number(29_997) == Some(9_999),
        "the last memory",
    );
    holds(&rt, typed.counter(29_998).is_some(), "the last counter");
    holds(&rt, shapes(alloc, &typed).is_ok(), "shapes");
    holds(&rt, within(&typed).is_ok(), "limits");
    Ok(())
}
