//! Trees whose expressions have their kinds.

ghost use Rattle.std.specs.Prelude.{◌≡◌, IsTrue, Some, None, [], IfOk};
ghost use Rattle.dh_tree.specs.Seen.{program_seen};
ghost use Rattle.dh_tree.specs.Collected.{AreLoopsOf, IsCollected};
ghost use Rattle.dh_tree.specs.Counters.{counters_of, counter_in, AreSingle};
ghost use Rattle.dh_tree.specs.Excesses.{copies_excess};
ghost use Rattle.dh_tree.specs.Breaches.{KeepsNames};
ghost use Rattle.dh_tree.specs.Resolved.{HasEntities};
ghost use Rattle.dh_tree.specs.Kinds.{HasKinds};
ghost use Rattle.dh_tree.specs.KindBreaches.{KeepsKinds};
ghost use Rattle.dh_tree.specs.Memories.{memories_of, number_in, table_of};
ghost use Rattle.dh_tree.specs.Views.{views_of};

use crate::tables::MemTable;
use crate::trees::counters::{Loops, loops_of};
use crate::trees::memories::{Collected, collect};
use crate::trees::sorts::declare_no_view;
use crate::trees::{Counter, Tree};
use dh_base::NoMemory;
use std::alloc::Global;
use std::marker::Model;

/// The memories of a tree, and its loops.
fn tables_of(alloc: Global, tree: &Tree) -> Result<(Collected, Loops), NoMemory>
    requires { HasEntities (program_seen tree.now) }
    ensures memories { IfOk result (λ t. IsCollected tree.now t.0) }
    ensures loops { IfOk result (λ t. AreLoopsOf tree.now t.1) }
{
    let memories = collect(alloc, tree)?;
    let loops = loops_of(alloc, tree)?;
    Ok((memories, loops))
}

/// A tree whose every name has the number of what it stands for and whose every expression has its kind,
/// and that breaks no rule on names or kinds; with the table of its memories. A contract sees its tree.
pub struct Typed {
    tree: Tree,
    memories: Collected,
    loops: Loops,
}

/// A call, and not the drop of each part where the tree is dropped: that is long, and would stand in the
/// proof of each such function.
impl Drop for Typed {
    fn drop(self) {
        let Typed {
            tree,
            memories: _memories,
            loops: _loops,
        } = self;
        tree.let_go();
    }
}

impl Model for Typed {
    ghost use Rattle.std.specs.Coded.{codes};
    ghost use Rattle.dh_tree.specs.contracts.trees.commands.Command as command;
    ghost use Rattle.dh_tree.specs.declared.trees.programs.Tree.{Tree};
    ghost use Rattle.dh_tree.specs.TypedTrees.{IsTypedWith};

    ghost Value = { Tree };

    ghost coded = { Prim.hlevel (codes, command.the_row.coded) };

    ghost view = { λ t. t.tree };

    ghost invariant = { λ t. IsTypedWith t.tree t.memories t.loops };
}

impl Typed {
    /// The typed tree, with the table of its memories.
    ///
    /// # Errors
    ///
    /// `NoMemory`, the one error; no clause tells when.
    pub fn of(alloc: Global, tree: Tree) -> Result<Typed, NoMemory>
        requires names { KeepsNames (program_seen tree) }
        requires entities { HasEntities (program_seen tree) }
        requires kinds { HasKinds (program_seen tree) }
        requires suits { KeepsKinds (program_seen tree) }
        ensures { IfOk result (λ t. t ≡ tree) }
    {
        let Ok((memories, loops)) = tables_of(alloc, &tree) else {
            tree.let_go();
            return Err(NoMemory);
        };
        Ok(Typed {
            tree,
            memories,
            loops,
        })
    }

    /// The tree.
    pub fn tree(&self) -> &Tree
        ensures tree { result.now ≡ self.now }
        ensures names { KeepsNames (program_seen self.now) }
        ensures entities { HasEntities (program_seen self.now) }
        ensures kinds { HasKinds (program_seen self.now) }
        ensures suits { KeepsKinds (program_seen self.now) }
    {
        &self.tree
    }

    /// The number in the table of the memory that an entity is, if it is one.
    pub fn memory_number(&self, entity: u32) -> Option<usize>
        ensures { result ≡ number_in (memories_of (program_seen self.now)) (Some entity) }
    {
        let entity = entity as usize;
        if entity < self.memories.numbers.len() {
            self.memories.numbers[entity]
        } else {
            None
        }
    }

    /// The loop of which an entity is the iterator, if it is one.
    pub fn counter(&self, entity: u32) -> Option<Counter>
        ensures { result ≡ counter_in (counters_of (program_seen self.now)) (Some entity) }
    {
        let entity = entity as usize;
        if entity < self.loops.by_entity.len() {
            self.loops.by_entity[entity]
        } else {
            None
        }
    }

    /// Whether it is told at once that each loop has one copy of its body at most.
    pub fn has_single_loops(&self) -> bool
        ensures { IsTrue result → AreSingle (counters_of (program_seen self.now)) }
    {
        self.loops.single
    }

    /// Whether it is told at once that no place in it has more copies than the limit allows.
    pub fn has_few_copies(&self) -> bool
        ensures { IsTrue result → copies_excess 1 (program_seen self.now).body ≡ None }
    {
        self.loops.few
    }

    /// Whether it is told at once that it declares no view: none of its entities is one.
    pub fn has_no_view(&self) -> bool
        ensures { IsTrue result → views_of (program_seen self.now) ≡ [] }
    {
        let entities = self.tree.entities.as_slice();
        declare_no_view(entities)
    }

    /// The table of its memories: those from outside, then the local ones, both in the order of the tree.
    pub fn memories(&self) -> &MemTable
        ensures { result.now ≡ table_of (program_seen self.now) }
    {
        &self.memories.table
    }
}
