//! Writes a report: how a run stands and the contents of its outside memories, as a line of JSON.

ghost use Rattle.std.specs.Prelude.{◌≡◌, ◌<◌, ◌≤◌, ◌^◌, false, [], map, length, min, ◌-◌, IfOk, IsOk, OnOk, string_bytes, Some, None};
ghost use Rattle.std.specs.List.{AllByRecursion};
ghost use Rattle.serde_json.specs.View.{view};
ghost use Rattle.dh_tree.specs.Shapes.{IsProgramTable};
ghost use Rattle.dh_tree.specs.Tables.{FitsEntry, Fits, elements_of};
ghost use Rattle.dh_value.specs.Words.{IsInteger, width_of};
ghost use Rattle.dh_value.specs.declared.kinds.Kind.TheVariants as kind;
ghost use Rattle.dh_data.specs.Reading.{HasCountableNumbers};
ghost use Rattle.dh_data.specs.Reports.{PutsMemory, report_text, report_data, run_data, memories_data, memory_data, nested_data, element_data, number_of_bits, is_signed, outcome_text as outcome_bytes, name_at};

use dh_base::{NoMemory, Outcome, Place};
use dh_tree::{Dim, Kind, MemEntry, MemTable, Memories};
use dh_value::width;
use serde_json::{Map, Value, json};
use std::alloc::{AllocError, Global};

/// How a run stood when it was left.
#[derive(Clone, Copy, PartialEq, Eq)]
pub struct Ending {
    /// Whether it had ended, and how.
    pub outcome: Outcome,
    /// Logical steps that it took.
    pub steps: u64,
    /// Clocks that the net took; none where no net ran.
    pub clocks: Option<u64>,
}

/// The report of a run: an object of compact JSON, its members in byte order, and LF. `clocks` is
/// left out where no net ran; `memories` has the outside memories alone, and signed elements as
/// signed numbers. Takes time and memory linear in the number of elements.
pub fn report(
    alloc: Global,
    table: &MemTable,
    m: &Memories,
    ending: &Ending,
) -> Result<Vec<u8>, NoMemory>
    requires table { IsProgramTable table.now }
    requires fits { Fits table.now m.now }
    ensures { IfOk result (λ b. b.items ≡ report_text table.now m.now ending.now) }
{
    let value = report_value(alloc, table, m, ending)?;
    let mut text = value.to_vec(alloc)?;
    text.push(b'\n')?;
    Ok(text)
}

fn report_value(
    alloc: Global,
    table: &MemTable,
    m: &Memories,
    ending: &Ending,
) -> Result<Value, AllocError>
    requires table { IsProgramTable table.now }
    requires fits { Fits table.now m.now }
    ensures { IfOk result (λ v. view v ≡ report_data table.now m.now ending.now) }
{
    let memories = memories_value(alloc, table.as_slice(), m.lists())?;
    let outcome = outcome_text(alloc, table.as_slice(), ending.outcome)?;
    match ending.clocks {
        Some(clocks) => counted_run(alloc, clocks, memories, outcome, ending.steps),
        None => uncounted_run(alloc, memories, outcome, ending.steps),
    }
}

/// The report of a run that took clocks.
fn counted_run(
    alloc: Global,
    clocks: u64,
    memories: Value,
    outcome: String,
    steps: u64,
) -> Result<Value, AllocError>
    ensures { IfOk result
        (λ v. view v ≡ run_data (Some clocks) (view memories) (string_bytes outcome) steps) }
{
    json!(in alloc; {
        "clocks": clocks,
        "memories": memories,
        "outcome": outcome,
        "steps": steps
    })
}

/// The report of a run that took none.
fn uncounted_run(
    alloc: Global,
    memories: Value,
    outcome: String,
    steps: u64,
) -> Result<Value, AllocError>
    ensures { IfOk result
        (λ v. view v ≡ run_data None (view memories) (string_bytes outcome) steps) }
{
    json!(in alloc; {
        "memories": memories,
        "outcome": outcome,
        "steps": steps
    })
}

fn memories_value(
    alloc: Global,
    entries: &[MemEntry],
    lists: &[Vec<u64>],
) -> Result<Value, AllocError>
    requires table { AllByRecursion HasCountableNumbers entries.now }
    requires fits { Fits entries.now (map (λ v. v.items) lists.now) }
    ensures { IfOk result
        (λ v. view v ≡ memories_data entries.now (map (λ l. l.items) lists.now)) }
{
    let mut members = Map::new(alloc);
    for (i, entry) in entries.iter().enumerate() {
        put_memory(alloc, &mut members, entry, lists[i].as_slice())?;
    }
    Ok(Value::Object(members))
}

/// Adds the member of a memory, if it is outside.
fn put_memory(
    alloc: Global,
    members: &mut Map<String, Value>,
    entry: &MemEntry,
    values: &[u64],
) -> Result<(), AllocError>
    requires entry { HasCountableNumbers entry.now }
    requires fits { FitsEntry entry.now values.now }
    ensures put { OnOk result
        (PutsMemory entry.now values.now members.old.entries members.new.entries) }
    ensures local { entry.now.outside ≡ false → IsOk result }
{
    if !entry.outside {
        return Ok(());
    }
    let memory = memory_value(alloc, entry.shape.kind, entry.shape.dims.as_slice(), values)?;
    serde_json::put(members, alloc, entry.name.as_str(), memory)
}

fn memory_value(
    alloc: Global,
    kind: Kind,
    dims: &[Dim],
    values: &[u64],
) -> Result<Value, AllocError>
    requires kind { IsInteger kind }
    requires small { AllByRecursion (λ v. v < 2 ^ width_of kind) values.now }
    requires long { length values.now ≡ elements_of dims.now }
    ensures { IfOk result (λ v. view v ≡ memory_data kind dims.now values.now) }
{
    let elements = nested(alloc, kind, dims, values)?;
    json!(in alloc; {
        "data": elements,
        "format": {
            "is_signed": signed(kind),
            "numeric_type": "bitnum",
            "width": width(kind)
        }
    })
}

/// The elements in lists nested by the dimensions.
fn nested(alloc: Global, kind: Kind, dims: &[Dim], values: &[u64]) -> Result<Value, AllocError>
    requires kind { IsInteger kind }
    requires small { AllByRecursion (λ v. v < 2 ^ width_of kind) values.now }
    requires long { length values.now ≡ elements_of dims.now }
    ensures seen { IfOk result (λ v. view v ≡ nested_data kind dims.now values.now) }
    ensures element { dims.now ≡ [] → IsOk result }
{
    let Some((dim, rest)) = dims.split_first() else {
        return Ok(element(kind, values[0]));
    };
    let width = elements(rest) as usize;
    let mut lists = Vec::with_capacity(alloc, dim.size as usize)?;
    let mut left = values;
    for _ in 0..dim.size {
        let (row, others) = left.split_at(width);
        lists.push(nested(alloc, kind, rest, row)?)?;
        left = others;
    }
    Ok(Value::Array(lists))
}

/// The product of the sizes, or the greatest number where it is greater.
pub fn elements(dims: &[Dim]) -> u64
    ensures { result ≡ min (elements_of dims.now) (2 ^ 64 - 1) }
{
    let mut product = 1u64;
    for i in (0..dims.len()).rev() {
        product = dims[i].size.saturating_mul(product);
    }
    product
}

fn element(kind: Kind, bits: u64) -> Value
    requires kind { IsInteger kind }
    requires small { bits < 2 ^ width_of kind }
    ensures { view result ≡ element_data kind bits }
{
    match kind {
        Kind::Bool | Kind::Unsigned(_) => Value::from(bits),
        Kind::Signed(width) => Value::from(signed_number(bits, width)),
    }
}

/// The number that these bits stand for in two's complement.
fn signed_number(bits: u64, width: u8) -> i64
    requires width { (1 ≤ width) × (width ≤ 64) }
    requires small { bits < 2 ^ width }
    ensures { result ≡ number_of_bits (kind.Signed width) bits }
{
    let greatest = u64::MAX >> (64 - width);
    if bits <= greatest / 2 {
        bits as i64
    } else {
        -1 - (greatest - bits) as i64
    }
}

/// Whether the numbers of the kind have a sign.
pub fn signed(kind: Kind) -> bool
    ensures { result ≡ is_signed kind }
{
    matches!(kind, Kind::Signed(_))
}

fn outcome_text(alloc: Global, entries: &[MemEntry], outcome: Outcome) -> Result<String, AllocError>
    ensures { IfOk result (λ s. string_bytes s ≡ outcome_bytes entries.now outcome) }
{
    let mut text = String::new(alloc);
    match outcome {
        Outcome::Going => text.push_str("going")?,
        Outcome::Ended => text.push_str("done")?,
        Outcome::Faulted { kind, place } => {
            write!(
                text,
                "fault {} {}:{}",
                kind.name(),
                place.line,
                place.column
            )?
        }
        Outcome::Stuck {
            memory,
            bank,
            place,
        } => write!(
            text,
            "stuck {} {} {}:{}",
            name_of(entries, memory),
            bank,
            place.line,
            place.column
        )?,
    }
    Ok(text)
}

/// The name of a memory; empty where the table has no such memory.
fn name_of(entries: &[MemEntry], memory: u32) -> &str
    ensures { result.now ≡ name_at entries.now memory }
{
    match entries.get(memory as usize) {
        Some(entry) => entry.name.as_str(),
        None => "",
    }
}
