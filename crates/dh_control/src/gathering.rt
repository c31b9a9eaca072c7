//! Items that belong to numbers, gathered by number in one pass.

ghost use Rattle.std.specs.Prelude.{◌≡◌, [], IfOk, OnOk, length, replicate};
ghost use Rattle.dh_control.specs.KeyedItems.{AreGathered, PutsBehind, vector_items};

use dh_base::NoMemory;
use std::alloc::Global;

/// An item that belongs to a number.
#[derive(Clone, Copy)]
pub struct Keyed<T> {
    /// The number.
    pub key: u64,
    /// The item.
    pub item: T,
}

/// So many empty lists.
fn empty_lists<T>(alloc: Global, count: usize) -> Result<Vec<Vec<T>>, NoMemory>
where
    T: Drop,
    ensures { IfOk result (λ lists. vector_items lists.items ≡ replicate count []) }
{
    let mut lists = Vec::new(alloc);
    for i in 0..count {
        lists.push(Vec::new(alloc))?;
    }
    Ok(lists)
}

/// Adds an item to one of the lists, where it is there.
fn put<T>(lists: &mut [Vec<T>], at: usize, item: T) -> Result<(), NoMemory>
where
    T: Drop,
    ensures { OnOk result (PutsBehind lists.old lists.new at item) }
{
    if at < lists.len() {
        lists[at].push(item)?;
    }
    Ok(())
}

/// The items of each number below a count, in order.
pub fn gather<T: Copy>(
    alloc: Global,
    count: usize,
    entries: &[Keyed<T>],
) -> Result<Vec<Vec<T>>, NoMemory>
    ensures each { IfOk result (λ lists. AreGathered count entries.now lists.items) }
    ensures long { IfOk result (λ lists. length (vector_items lists.items) ≡ count) }
{
    let mut lists = empty_lists(alloc, count)?;
    for entry in entries {
        put(lists.as_mut_slice(), entry.key as usize, entry.item)?;
    }
    Ok(lists)
}
