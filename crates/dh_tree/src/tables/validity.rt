//! Which tables of memories a net can have.

ghost use Rattle.std.specs.Prelude.{◌≡◌, ℕ, ◌≤◌, ◌↔◌, IsTrue};
ghost use Rattle.std.specs.List.{AllByRecursion};
ghost use Rattle.dh_tree.specs.Tables.{IsEntry, IsTable, HasNoName, HasDistinctNames, line_of, elements_of, elements_in, most_elements};
ghost use Rattle.dh_value.specs.Words.{IsInteger};

use super::{Dim, MemEntry, MemTable};
use dh_base::Limit;
use dh_value::Kind;

// Whether the kind is a number kind of 1 to 64 bits.
fn is_integer(kind: Kind) -> bool
    ensures { IsTrue result ↔ IsInteger kind }
{
    match kind {
        Kind::Bool => false,
        Kind::Unsigned(width) | Kind::Signed(width) => 1 <= width && width <= 64,
    }
}

// Whether there is one dimension, with at least one element, in one bank.
fn is_line(dims: &[Dim]) -> bool
    ensures { IsTrue result ↔ ((size : ℕ) × ((dims.now ≡ line_of size) × (1 ≤ size))) }
{
    match dims {
        [dim] => dim.banks == 1 && 1 <= dim.size,
        _ => false,
    }
}

// Whether a net can have the memory.
fn is_entry(entry: &MemEntry) -> bool
    ensures { IsTrue result ↔ IsEntry entry.now }
{
    entry.name.is_valid()
        && is_integer(entry.shape.kind)
        && entry.shape.ports == 1
        && is_line(entry.shape.dims.as_slice())
        && entry.outside
}

// Whether a net can have each of the memories.
fn are_entries(entries: &[MemEntry]) -> bool
    ensures { IsTrue result ↔ AllByRecursion IsEntry entries.now }
{
    for entry in entries {
        if !is_entry(entry) {
            return false;
        }
    }
    true
}

// Whether no entry has the name.
fn has_no_name(name: &str, entries: &[MemEntry]) -> bool
    ensures { IsTrue result ↔ HasNoName name.now entries.now }
{
    for entry in entries {
        if entry.name.as_str() == name {
            return false;
        }
    }
    true
}

// Whether all names differ. Compares each two.
fn has_distinct_names(entries: &[MemEntry]) -> bool
    ensures { IsTrue result ↔ HasDistinctNames entries.now }
{
    for (i, entry) in entries.iter().enumerate() {
        if !has_no_name(entry.name.as_str(), &entries[i + 1..]) {
            return false;
        }
    }
    true
}

/// The number of the memory's elements.
pub fn element_count(entry: &MemEntry) -> u64
    requires { IsEntry entry.now }
    ensures { result ≡ elements_of entry.now.shape.dims }
{
    match entry.shape.dims.as_slice() {
        [dim] => dim.size,
        _ => 0,
    }
}

// Whether the memories together have few enough elements.
fn has_few_elements(entries: &[MemEntry]) -> bool
    requires { AllByRecursion IsEntry entries.now }
    ensures { IsTrue result ↔ (elements_in entries.now ≤ most_elements) }
{
    let mut room = Limit::Elements.greatest();
    for entry in entries {
        let count = element_count(entry);
        // A sum of the counts could wrap.
        if room < count {
            return false;
        }
        room -= count;
    }
    true
}

/// Whether a net can have the memories: each outside, with a name of the language, of a number kind of 1
/// to 64 bits, of one dimension with at least one element, in one bank with one port; with names that
/// differ, and at most 1048576 elements together.
pub fn is_table(table: &MemTable) -> bool
    ensures { IsTrue result ↔ IsTable table.now }
{
    let entries = table.as_slice();
    are_entries(entries) && has_distinct_names(entries) && has_few_elements(entries)
}
