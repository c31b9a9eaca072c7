//! Which tables of memories a net can have.

ghost use Rattle.std.specs.Prelude.{◌≡◌, ◌<◌, ◌≤◌, ◌*◌, ◌↔◌, IsTrue, MatchOption};
ghost use Rattle.std.specs.List.{AllByRecursion};
ghost use Rattle.dh_tree.specs.Elements.{banks_of};
ghost use Rattle.dh_tree.specs.Shapes.{IsDim, IsShape, IsMemory, IsLocal, HasLocalsLast, IsProgramTable, outside_of, most_banks};
ghost use Rattle.dh_tree.specs.Tables.{HasNoName, HasDistinctNames, elements_of, elements_in, most_elements};
ghost use Rattle.dh_value.specs.Words.{IsInteger};

use dh_base::Limit;
use dh_tree::{Dim, Kind, MemEntry, MemTable, Shape};

// Whether the kind is a number kind of 1 to 64 bits.
fn is_integer(kind: Kind) -> bool
    ensures { IsTrue result ↔ IsInteger kind }
{
    match kind {
        Kind::Bool => false,
        Kind::Unsigned(width) | Kind::Signed(width) => 1 <= width && width <= 64,
    }
}

// Whether the dimension has elements, and banks that divide them.
fn is_dim(dim: Dim) -> bool
    ensures { IsTrue result ↔ IsDim dim }
{
    1 <= dim.size && 1 <= dim.banks && dim.size % dim.banks == 0
}

// Whether all dimensions do.
fn are_dims(dims: &[Dim]) -> bool
    ensures { IsTrue result ↔ AllByRecursion IsDim dims.now }
{
    for dim in dims {
        if !is_dim(*dim) {
            return false;
        }
    }
    true
}

// The product, where it is not above the limit.
fn times_within(count: u64, factor: u64, most: u64) -> Option<u64>
    requires count { count ≤ most_elements }
    requires some { 1 ≤ count }
    requires most { most ≤ most_elements }
    ensures { MatchOption result (most < count * factor) (λ n. (n ≡ count * factor) × (n ≤ most)) }
{
    if factor > most {
        return None;
    }
    let product = count * factor;
    if product > most { None } else { Some(product) }
}

// Whether the dimensions together have few enough banks.
fn has_few_banks(dims: &[Dim]) -> bool
    requires { AllByRecursion IsDim dims.now }
    ensures { IsTrue result ↔ (banks_of dims.now ≤ most_banks) }
{
    let mut count = 1;
    for dim in dims {
        match times_within(count, dim.banks, Limit::Banks.greatest()) {
            Some(product) => count = product,
            None => return false,
        }
    }
    true
}

// The elements of the dimensions, where they are not above the limit.
fn elements_within(dims: &[Dim], most: u64) -> Option<u64>
    requires dims { AllByRecursion IsDim dims.now }
    requires most { most ≤ most_elements }
    ensures { MatchOption result (most < elements_of dims.now)
        (λ n. (n ≡ elements_of dims.now) × (n ≤ most)) }
{
    let mut count = 1;
    for dim in dims {
        match times_within(count, dim.size, most) {
            Some(product) => count = product,
            None => return None,
        }
    }
    if count > most { None } else { Some(count) }
}

// Whether the shape keeps the rules and limits.
fn is_shape(shape: &Shape) -> bool
    ensures { IsTrue result ↔ IsShape shape.now }
{
    let dims = shape.dims.as_slice();
    is_integer(shape.kind)
        && 1 <= shape.ports
        && shape.ports <= Limit::Ports.greatest()
        && 1 <= dims.len()
        && dims.len() as u64 <= Limit::Dimensions.greatest()
        && are_dims(dims)
        && has_few_banks(dims)
}

// Whether the memory has a name of the language and such a shape.
fn is_memory(entry: &MemEntry) -> bool
    ensures { IsTrue result ↔ IsMemory entry.now }
{
    entry.name.is_valid() && is_shape(&entry.shape)
}

// Whether all memories do.
fn are_memories(entries: &[MemEntry]) -> bool
    ensures { IsTrue result ↔ AllByRecursion IsMemory entries.now }
{
    for entry in entries {
        if !is_memory(entry) {
            return false;
        }
    }
    true
}

// Whether no memory from outside has the name.
fn has_no_name(name: &str, entries: &[MemEntry]) -> bool
    ensures { IsTrue result ↔ HasNoName name.now (outside_of entries.now) }
{
    for entry in entries {
        if entry.outside && entry.name.as_str() == name {
            return false;
        }
    }
    true
}

// Whether the names of all memories from outside differ. Compares each two.
fn has_distinct_names(entries: &[MemEntry]) -> bool
    ensures { IsTrue result ↔ HasDistinctNames (outside_of entries.now) }
{
    for (i, entry) in entries.iter().enumerate() {
        if entry.outside && !has_no_name(entry.name.as_str(), &entries[i + 1..]) {
            return false;
        }
    }
    true
}

// Whether all memories are local.
fn are_local(entries: &[MemEntry]) -> bool
    ensures { IsTrue result ↔ AllByRecursion IsLocal entries.now }
{
    for entry in entries {
        if entry.outside {
            return false;
        }
    }
    true
}

// Whether behind a local memory there are no others.
fn has_locals_last(entries: &[MemEntry]) -> bool
    ensures { IsTrue result ↔ HasLocalsLast entries.now }
{
    for (i, entry) in entries.iter().enumerate() {
        if !entry.outside {
            return are_local(&entries[i + 1..]);
        }
    }
    true
}

// Whether the memories together have few enough elements.
fn has_few_elements(entries: &[MemEntry]) -> bool
    requires { AllByRecursion IsMemory entries.now }
    ensures { IsTrue result ↔ (elements_in entries.now ≤ most_elements) }
{
    let mut room = Limit::Elements.greatest();
    for entry in entries {
        match elements_within(entry.shape.dims.as_slice(), room) {
            Some(count) => room -= count,
            None => return false,
        }
    }
    true
}

/// Whether a net can have the memories: each with a name of the language, of a number kind of 1 to 64
/// bits, with 1 to 8 ports, of 1 to 6 dimensions with at least one element each, in banks that divide
/// them and are at most 64 together; those from outside before the local ones, with names that differ;
/// and at most 1048576 elements together.
pub fn is_program_table(table: &MemTable) -> bool
    ensures { IsTrue result ↔ IsProgramTable table.now }
{
    let entries = table.as_slice();
    are_memories(entries)
        && has_distinct_names(entries)
        && has_locals_last(entries)
        && has_few_elements(entries)
}
