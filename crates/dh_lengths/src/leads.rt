//! What names of a program lead through.

ghost use Rattle.std.specs.Prelude.{◌≡◌, option_map};
ghost use Rattle.std.specs.Option.{is_some};
ghost use Rattle.dh_tree.specs.Memories.{memories_of, memory_in};
ghost use Rattle.dh_tree.specs.Seen.{program_seen};
ghost use Rattle.dh_ways.specs.Seen.{way_seen};
ghost use Rattle.dh_lengths.specs.LedBy.{way_by};

use dh_tree::Typed;
use dh_ways::{WayRef, WayTable};

/// A program and the ways of its views.
#[derive(Clone, Copy)]
pub struct Leads<'a> {
    /// The program.
    pub program: &'a Typed,
    /// The ways of its views.
    pub ways: &'a WayTable,
}

/// Whether an entity is a memory.
fn is_memory(program: &Typed, entity: Option<u32>) -> bool
    ensures { result ≡ is_some (memory_in (memories_of (program_seen program.now)) entity) }
{
    let Some(one) = entity else {
        return false;
    };
    program.memory_number(one).is_some()
}

/// The way of what a name stands for, where that is a view.
pub fn way_of<'a>(leads: &Leads<'a>, entity: Option<u32>) -> Option<WayRef<'a>>
    ensures { option_map way_seen result ≡ way_by leads.now entity }
{
    if is_memory(leads.program, entity) {
        None
    } else {
        leads.ways.get(entity)
    }
}
