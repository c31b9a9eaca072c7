//! The registers of a program's variables: those of each entity stand together, and of an iterator the first is the
//! counter of its loop.

ghost use Rattle.std.specs.Prelude.{◌≡◌, ◌++◌, IfOk, OnOk, Some, replicate};
ghost use Rattle.dh_tree.specs.Counters.{counter_in, counters_of};
ghost use Rattle.dh_tree.specs.Seen.{program_seen};
ghost use Rattle.dh_gathering.specs.Registers.{AreRegisters, IsRegisterKind};

use dh_base::{Items, NoMemory};
use dh_code::VariableSlots;
use dh_expressions::{counter_width, narrow};
use dh_meaning::turn_count;
use dh_tree::{Kind, Typed};
use std::alloc::Global;

/// The kind of the registers of an entity: that of a variable, or of a counter of so many turns for an iterator.
fn register_kind(program: &Typed, entity: u32, kind: Kind) -> Kind
    ensures { IsRegisterKind (counter_in (counters_of (program_seen program.now)) (Some entity))
        kind
        result }
{
    match program.counter(entity) {
        Some(counter) => {
            let turns = turn_count(counter.low, counter.high, counter.factor);
            Kind::Unsigned(counter_width(turns))
        }
        None => kind,
    }
}

/// Adds so many registers of one kind.
fn push_kinds(registers: &mut Items<Kind>, kind: Kind, count: u32) -> Result<(), NoMemory>
    ensures { OnOk result (registers.new ≡ registers.old ++ replicate count kind) }
{
    for _ in 0..count {
        registers.push(kind)?;
    }
    Ok(())
}

/// The kinds of the registers of variables, by their numbers, of which there are so many.
///
/// # Errors
///
/// `NoMemory` where an allocation was refused.
pub fn registers_of(
    alloc: Global,
    program: &Typed,
    held: &[VariableSlots],
    count: u32,
) -> Result<Items<Kind>, NoMemory>
    ensures { IfOk result (λ registers. AreRegisters (program_seen program.now) held.now count
        registers) }
{
    let mut registers = Items::new(alloc);
    for i in 0..held.len() {
        let kind = register_kind(program, narrow(i as u64), held[i].kind);
        let end = if i + 1 < held.len() {
            held[i + 1].first
        } else {
            count
        };
        push_kinds(&mut registers, kind, end.saturating_sub(held[i].first))?;
    }
    Ok(registers)
}
