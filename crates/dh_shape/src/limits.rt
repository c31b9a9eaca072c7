//! Which limits the memories and copies of a program exceed.

ghost use Rattle.std.specs.Prelude.{◌≡◌, ◌*◌, min};
ghost use Rattle.dh_tree.specs.Elements.{banks_of};
ghost use Rattle.dh_tree.specs.Excesses.{most_counted, copies_excess, first_excess};
ghost use Rattle.dh_tree.specs.Seen.{program_seen};
ghost use Rattle.dh_tree.specs.Tables.{elements_of, elements_in};
ghost use Rattle.dh_shape.specs.Above.{excess_in, first_excess_in, excess_of, TellsExcess};

use crate::copies::copies_above;
use crate::counting::{excess, product, total};
use dh_base::{Excess, Limit};
use dh_tree::{Dim, MemEntry, Shape, Typed};

/// What is counted of a memory by itself.
#[derive(Clone, Copy)]
enum Measure {
    Dimensions,
    Banks,
    Ports,
}

/// A count times the banks of a dimension, as far as counts go.
fn times_banks(count: u64, dim: &Dim) -> u64
    ensures { result ≡ min (count * dim.now.banks) most_counted }
{
    product(count, dim.banks)
}

/// A count times the size of a dimension, as far as counts go.
fn times_size(count: u64, dim: &Dim) -> u64
    ensures { result ≡ min (count * dim.now.size) most_counted }
{
    product(count, dim.size)
}

/// The banks of all dimensions together, as far as counts go.
fn banks(dims: &[Dim]) -> u64
    ensures { result ≡ min (banks_of dims.now) most_counted }
{
    let mut count = 1;
    for dim in dims {
        count = times_banks(count, dim);
    }
    count
}

/// The elements of a memory, as far as counts go.
fn elements(dims: &[Dim]) -> u64
    ensures { result ≡ min (elements_of dims.now) most_counted }
{
    let mut count = 1;
    for dim in dims {
        count = times_size(count, dim);
    }
    count
}

/// The elements of all memories together, as far as counts go.
fn all_elements(entries: &[MemEntry]) -> u64
    ensures { result ≡ min (elements_in entries.now) most_counted }
{
    let mut count = 0;
    for entry in entries {
        count = total(count, elements(entry.shape.dims.as_slice()));
    }
    count
}

/// What is counted of a memory, where it is above its limit.
fn measured(measure: Measure, shape: &Shape) -> Option<Excess>
    ensures { result ≡ excess_in measure shape.now }
{
    match measure {
        Measure::Dimensions => excess(Limit::Dimensions, shape.dims.len() as u64),
        Measure::Banks => excess(Limit::Banks, banks(shape.dims.as_slice())),
        Measure::Ports => excess(Limit::Ports, shape.ports),
    }
}

/// The first memory of which that is above its limit.
fn first_above(measure: Measure, entries: &[MemEntry]) -> Option<Excess>
    ensures { result ≡ first_excess_in measure entries.now }
{
    for entry in entries {
        let excess = measured(measure, &entry.shape);
        if excess.is_some() {
            return excess;
        }
    }
    None
}

/// The first excess of a table, with that of copies in its place.
fn table_excess(entries: &[MemEntry], copies: Option<Excess>) -> Option<Excess>
    ensures { result ≡ excess_of copies entries.now }
{
    if let Some(excess) = first_above(Measure::Dimensions, entries) {
        return Some(excess);
    }
    if let Some(excess) = first_above(Measure::Banks, entries) {
        return Some(excess);
    }
    if let Some(excess) = first_above(Measure::Ports, entries) {
        return Some(excess);
    }
    if let Some(excess) = copies {
        return Some(excess);
    }
    excess(Limit::Elements, all_elements(entries))
}

/// The first excess of copies of a program. Where it is told that there is none, nothing is walked over.
fn program_copies(typed: &Typed) -> Option<Excess>
    ensures { result ≡ copies_excess 1 (program_seen typed.now).body }
{
    if typed.has_few_copies() {
        None
    } else {
        copies_above(1, &typed.tree().body)
    }
}

/// Tells whether the memories and copies of a program keep the limits. Takes no memory.
///
/// # Errors
///
/// The first excess: of the dimensions of a memory, then of its banks over all dimensions, then of the
/// ports of a bank, each of the first memory that has too many; then of the copies of one place, of the
/// first loop inside which there are too many; then of the elements of all memories together. Counts stop
/// at 1,000,000,000.
pub fn within(typed: &Typed) -> Result<(), Excess>
    ensures { TellsExcess (first_excess (program_seen typed.now)) result }
{
    let copies = program_copies(typed);
    match table_excess(typed.memories().as_slice(), copies) {
        Some(excess) => Err(excess),
        None => Ok(()),
    }
}
