//! How many of a program's entities are iterators, memories or views: this tells without a walk over
//! the tree that it has no loop, no local memory or no view.

ghost use Rattle.std.specs.Prelude.{◌≡◌, ◌≤◌, ◌↔◌, IsTrue};
ghost use Rattle.dh_tree.specs.EntitySorts.{one_loop, one_memory, one_view, counted_by};

use crate::trees::{Entity, Sort};

// One for an iterator.
fn loops_of_sort(sort: Sort) -> usize
    ensures { result ≡ one_loop sort }
{
    match sort {
        Sort::Iterator => 1,
        Sort::Variable | Sort::Memory | Sort::View | Sort::Function => 0,
    }
}

// One for a memory.
fn memories_of_sort(sort: Sort) -> usize
    ensures { result ≡ one_memory sort }
{
    match sort {
        Sort::Memory => 1,
        Sort::Variable | Sort::Iterator | Sort::View | Sort::Function => 0,
    }
}

/// Whether none of these entities is an iterator.
pub fn declare_no_loop(entities: &[Entity]) -> bool
    ensures { IsTrue result ↔ (counted_by one_loop entities.now ≤ 0) }
{
    for entity in entities {
        if 0 < loops_of_sort(entity.sort) {
            return false;
        }
    }
    true
}

/// Whether at most so many of these entities are memories.
pub fn declare_few_memories(entities: &[Entity], most: usize) -> bool
    ensures { IsTrue result ↔ (counted_by one_memory entities.now ≤ most) }
{
    let mut room = most;
    for entity in entities {
        let count = memories_of_sort(entity.sort);
        if room < count {
            return false;
        }
        room -= count;
    }
    true
}

// One for a view.
fn views_of_sort(sort: Sort) -> usize
    ensures { result ≡ one_view sort }
{
    match sort {
        Sort::View => 1,
        Sort::Variable | Sort::Iterator | Sort::Memory | Sort::Function => 0,
    }
}

/// Whether none of these entities is a view.
pub fn declare_no_view(entities: &[Entity]) -> bool
    ensures { IsTrue result ↔ (counted_by one_view entities.now ≤ 0) }
{
    for entity in entities {
        if 0 < views_of_sort(entity.sort) {
            return false;
        }
    }
    true
}
