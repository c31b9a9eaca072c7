//! The memories of a net while it runs: a store in the first clock, and a read and a store in the two behind it.

ghost use Rattle.std.specs.Prelude.{IfOk};
ghost use Rattle.dh_net.specs.Valid.{IsValid};

use crate::comparing::same;
use crate::programs::{PROGRAM, ZEROS};
use crate::texts::LONGEST;
use dh_check::check;
use dh_compile::compile;
use dh_data::read;
use dh_net::Net;
use dh_sim::Sim;
use std::alloc::Global;
use std::test::Fail;

/// The net of a program.
fn net_of(alloc: Global, text: &str) -> Result<Net, Fail>
    ensures { IfOk result IsValid }
{
    let bytes = text.as_bytes();
    if bytes.len() > LONGEST {
        return Err("too long")?;
    }
    let accepted = check(alloc, bytes)?;
    let net = compile(alloc, &accepted)?;
    Ok(net)
}

/// The memories as they stand, as a text.
fn shown(alloc: Global, sim: &Sim<'_>) -> Result<String, Fail> {
    let memories = sim.memories(alloc)?;
    Ok(format!(in alloc; "{:?}", memories.lists())?)
}

/// Before the first clock, and behind each of the three.
const MEMORIES: &[&str] = &["[[0], [0]]", "[[7], [0]]", "[[7], [0]]", "[[7], [8]]"];

#[test]
fn memories_are_told_in_each_clock(rt: HostRuntime) -> Result<(), Fail> {
    let alloc = rt.alloc();
    let net = net_of(alloc, PROGRAM)?;
    let contents = read(alloc, &net.table, ZEROS.as_bytes())?;
    let mut sim = Sim::new(alloc, &net, contents)?;
    for want in MEMORIES {
        let got = shown(alloc, &sim)?;
        same(&rt, got.as_str(), want, PROGRAM);
        sim.clock();
    }
    Ok(())
}
