//! The lines that the program writes where it writes no report.

ghost use Rattle.std.specs.Prelude.{◌≡◌, IfOk, string_bytes};
ghost use Rattle.dh_data.specs.Reports.{name_at};
ghost use Rattle.dh_app.specs.Lines as lines;
ghost use Rattle.dh_app.specs.Parts.{WritesFault};

use dh_base::{Excess, NoMemory, Place, Rule};
use dh_data::DataFault;
use dh_tree::MemTable;
use serde_json::Value;
use std::alloc::{AllocError, Global};

const USAGE: &str =
    "usage: dahlia check FILE | lower FILE [--multipliers N] [--chain N] | interpret FILE DATA [--steps N] [--unchecked] | simulate FILE DATA [--clocks N] [--multipliers N] [--chain N] | batch FILE LIST | workload N\n";

/// How to call the program.
pub fn usage_line(alloc: Global) -> Result<Vec<u8>, NoMemory>
    ensures { IfOk result (λ v. v.items ≡ lines.usage_line) }
{
    Ok(Vec::from_slice(alloc, USAGE.as_bytes())?)
}

/// Which rule the program breaks, and where.
pub fn refused_line(alloc: Global, rule: Rule, place: Place) -> Result<Vec<u8>, NoMemory>
    ensures { IfOk result (λ v. v.items ≡ lines.refused_line rule place) }
{
    Ok(refused_text(alloc, rule, place)?.into_bytes())
}

fn refused_text(alloc: Global, rule: Rule, place: Place) -> Result<String, AllocError>
    ensures { IfOk result (λ s. string_bytes s ≡ lines.refused_line rule place) }
{
    let number = rule.number();
    let name = rule.name();
    let line = place.line;
    let column = place.column;
    format!(in alloc; "refused K{number} {name} {line}:{column}\n")
}

/// Which limit is exceeded, and by which count.
pub fn too_large_line(alloc: Global, excess: Excess) -> Result<Vec<u8>, NoMemory>
    ensures { IfOk result (λ v. v.items ≡ lines.too_large_line excess.limit excess.count) }
{
    let name = excess.limit.name();
    let text = excess_text(alloc, name, excess.count)?;
    Ok(text.into_bytes())
}

fn excess_text(alloc: Global, name: &str, count: u64) -> Result<String, AllocError>
    ensures { IfOk result (λ s. string_bytes s ≡ lines.excess_line name.now count) }
{
    format!(in alloc; "too large {name} {count}\n")
}

/// That the program breaks no rule.
pub fn ok_line(alloc: Global) -> Result<Vec<u8>, NoMemory>
    ensures { IfOk result (λ v. v.items ≡ lines.ok_line) }
{
    Ok(Vec::from_slice(alloc, b"ok\n")?)
}

/// What is wrong with a data file for the memories of a table: a memory by its name, as a JSON string.
/// Want of memory has no line.
pub fn bad_data_line(
    alloc: Global,
    table: &MemTable,
    fault: &DataFault,
) -> Result<Vec<u8>, NoMemory>
    ensures { WritesFault table.now fault.now result }
{
    let text = match fault {
        DataFault::NotJson => String::from_str(alloc, "bad data NotJson\n")?,
        DataFault::Missing { memory } => named_text(alloc, "Missing", name_of(table, *memory))?,
        DataFault::Unknown { name } => named_text(alloc, "Unknown", name.as_str())?,
        DataFault::Format { memory } => named_text(alloc, "Format", name_of(table, *memory))?,
        DataFault::Size { memory } => named_text(alloc, "Size", name_of(table, *memory))?,
        DataFault::Value { memory, position } => {
            value_text(alloc, name_of(table, *memory), *position)?
        }
        DataFault::NoMemory => return Err(NoMemory),
    };
    Ok(text.into_bytes())
}

fn named_text(alloc: Global, fault: &str, name: &str) -> Result<String, AllocError>
    ensures { IfOk result (λ s. string_bytes s ≡ lines.named_line fault.now name.now) }
{
    let name = quoted(alloc, name)?;
    format!(in alloc; "bad data {fault} {name}\n")
}

fn value_text(alloc: Global, name: &str, position: u64) -> Result<String, AllocError>
    ensures { IfOk result (λ s. string_bytes s ≡ lines.value_line name.now position) }
{
    let name = quoted(alloc, name)?;
    format!(in alloc; "bad data Value {name} {position}\n")
}

/// The name as a JSON string.
fn quoted(alloc: Global, name: &str) -> Result<String, AllocError>
    ensures { IfOk result (λ s. string_bytes s ≡ lines.quoted name.now) }
{
    let value = Value::String(String::from_str(alloc, name)?);
    value.to_string(alloc)
}

/// The name of a memory; empty where the table has no such memory.
fn name_of(table: &MemTable, memory: u32) -> &str
    ensures { result.now ≡ name_at table.now memory }
{
    match table.as_slice().get(memory as usize) {
        Some(entry) => entry.name.as_str(),
        None => "",
    }
}
