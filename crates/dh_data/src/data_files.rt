//! Reads a data file: the initial contents of the memories of a table, as JSON.

ghost use Rattle.std.specs.Prelude.{◌≡◌, ◌<◌, ◌^◌, length, map, IfOk};
ghost use Rattle.std.specs.List.{AllByRecursion};
ghost use Rattle.serde_json.specs.View.{view, members_view};
ghost use Rattle.dh_tree.specs.Shapes.{IsProgramTable};
ghost use Rattle.dh_tree.specs.Tables.{Fits};
ghost use Rattle.dh_data.specs.DataFiles.{ReadsDataFile, IfTold, Says, HasAll, IsOnlyMeaning};
ghost use Rattle.dh_data.specs.Reading.{IfRefused, HasCountableNumbers, ValueMeans, FindsMissing, FindsUnknown, KnowsNames, SaysLists};

use crate::members::{contents_of, member};
use dh_tree::{MemEntry, MemTable, Memories, Name};
use serde_json::{Map, Value};
use std::alloc::{AllocError, AllocFailed, Global};
use std::collections::BTreeSet;

/// Why a data file was not read: the first fault in the order of these variants, where the last
/// three are looked for memory by memory in the order of the table. A memory is named by its number
/// in the table.
#[derive(Debug, Drop)]
pub enum DataFault {
    /// The bytes are no JSON text, or no object.
    NotJson,
    /// The first outside memory for which there is no member.
    Missing {
        /// The memory.
        memory: u32,
    },
    /// A member that is for no outside memory, the least of them in byte order.
    Unknown {
        /// The member's name.
        name: Name,
    },
    /// The memory's member is no object, has no `data`, or has a `format` that is not the memory's.
    Format {
        /// The memory.
        memory: u32,
    },
    /// The lists of `data` are not nested and as long as the memory's dimensions say.
    Size {
        /// The memory.
        memory: u32,
    },
    /// An element is no whole number of the memory's kind.
    Value {
        /// The memory.
        memory: u32,
        /// The element's number in order of indices, from 0.
        position: u64,
    },
    /// Want of memory: an allocation was refused.
    NoMemory,
}

impl From<AllocError> for DataFault {
    ghost use Rattle.std.specs.Prelude.{◌≡◌};
    ghost use Rattle.dh_data.specs.declared.data_files.DataFault.TheVariants.{NoMemory};

    ghost from_gives = { λ _ e. e ≡ NoMemory };

    fn from(_refused: AllocError) -> DataFault {
        DataFault::NoMemory
    }
}

impl<T: Drop> From<AllocFailed<T>> for DataFault {
    ghost use Rattle.std.specs.Prelude.{◌≡◌};
    ghost use Rattle.dh_data.specs.declared.data_files.DataFault.TheVariants.{NoMemory};

    ghost from_gives = { λ _ e. e ≡ NoMemory };

    fn from(_refused: AllocFailed<T>) -> DataFault {
        DataFault::NoMemory
    }
}

/// The contents that a data file gives to the memories of a table: those of its members to the
/// outside ones, zeros to the local ones. The file is an object with one member per outside memory
/// and no other; each member is an object whose `data` has the memory's elements, in lists nested in
/// order of indices. Any bytes are safe. Takes time linear in the bytes and, for n memories, n log n.
pub fn read(alloc: Global, table: &MemTable, bytes: &[u8]) -> Result<Memories, DataFault>
    requires { IsProgramTable table.now }
    ensures reads { ReadsDataFile table.now bytes.now result }
    ensures only { IsOnlyMeaning table.now bytes.now result }
    ensures fits { IfOk result (λ m. Fits table.now m) }
{
    match Value::from_slice(alloc, bytes) {
        Ok(value) => contents_in(alloc, table, &value),
        Err(error) => {
            if error.is_memory() {
                Err(DataFault::NoMemory)
            } else {
                Err(DataFault::NotJson)
            }
        }
    }
}

fn contents_in(alloc: Global, table: &MemTable, value: &Value) -> Result<Memories, DataFault>
    requires { IsProgramTable table.now }
    ensures { ValueMeans table.now (view value.now) result }
{
    match value.as_object() {
        Some(members) => contents_by(alloc, table.as_slice(), members),
        None => Err(DataFault::NotJson),
    }
}

fn contents_by(
    alloc: Global,
    entries: &[MemEntry],
    members: &Map<String, Value>,
) -> Result<Memories, DataFault>
    requires entries { AllByRecursion HasCountableNumbers entries.now }
    requires few { length entries.now < 2 ^ 32 }
    ensures says { IfTold result (Says entries.now (members_view members.now.entries) result) }
    ensures refused { IfRefused result (HasAll entries.now (members_view members.now.entries)) }
{
    if let Some(memory) = first_missing(entries, members) {
        return Err(DataFault::Missing { memory });
    }
    if let Some(name) = least_unknown(alloc, entries, members)? {
        return Err(DataFault::Unknown { name });
    }
    let lists = lists_by(alloc, entries, members)?;
    Ok(Memories::new(lists))
}

/// The first outside memory without a member.
fn first_missing(entries: &[MemEntry], members: &Map<String, Value>) -> Option<u32>
    requires { length entries.now < 2 ^ 32 }
    ensures { FindsMissing entries.now (members_view members.now.entries) result }
{
    for (i, entry) in entries.iter().enumerate() {
        if entry.outside && member(members, entry.name.as_str()).is_none() {
            return Some(i as u32);
        }
    }
    None
}

/// The least name of a member that no outside memory has.
fn least_unknown(
    alloc: Global,
    entries: &[MemEntry],
    members: &Map<String, Value>,
) -> Result<Option<Name>, AllocError>
    ensures { IfOk result (FindsUnknown entries.now (members_view members.now.entries)) }
{
    let known = outside_names(alloc, entries)?;
    // The members are in byte order of their names.
    for (name, _) in members.iter() {
        if !known.contains(name.as_str()) {
            let text = String::from_str(alloc, name.as_str())?;
            let Ok(name) = Name::new(alloc, text) else {
                return Err(AllocError);
            };
            return Ok(Some(name));
        }
    }
    Ok(None)
}

/// The names of the outside memories.
fn outside_names<'t>(
    alloc: Global,
    entries: &'t [MemEntry],
) -> Result<BTreeSet<&'t str>, AllocError>
    ensures { IfOk result (λ known. KnowsNames entries.now known) }
{
    let mut known = BTreeSet::new(alloc);
    for entry in entries {
        if entry.outside {
            known.insert(entry.name.as_str())?;
        }
    }
    Ok(known)
}

/// The contents of each memory.
fn lists_by(
    alloc: Global,
    entries: &[MemEntry],
    members: &Map<String, Value>,
) -> Result<Vec<Vec<u64>>, DataFault>
    requires entries { AllByRecursion HasCountableNumbers entries.now }
    requires few { length entries.now < 2 ^ 32 }
    ensures { SaysLists entries.now (members_view members.now.entries) result }
{
    let mut lists = Vec::with_capacity(alloc, entries.len())?;
    for (i, entry) in entries.iter().enumerate() {
        let list = contents_of(alloc, i as u32, entry, members)?;
        lists.push(list)?;
    }
    Ok(lists)
}
