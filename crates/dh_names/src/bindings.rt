//! The names that are visible at a point of the text.

ghost use Rattle.std.specs.Prelude.{◌≡◌, [], None, length, take};
ghost use Rattle.dh_tree.specs.Scopes.{entity_of};
ghost use Rattle.dh_names.specs.Visible.{AddsName, Binds};

use dh_base::NoMemory;
use dh_tree::Name;
use indexmap::IndexMap;
use std::alloc::Global;
use std::marker::Model;

/// Names in order of declaration, and the number of what each stands for. A contract sees the list.
#[derive(Drop)]
pub struct Bindings {
    numbers: IndexMap<String, u32>,
}

impl Model for Bindings {
    ghost use Rattle.std.specs.Prelude.{List, map};
    ghost use Rattle.dh_tree.specs.Scopes.{ScopeEntry};
    ghost use Rattle.dh_names.specs.Entries.{bound};

    ghost Value = { List ScopeEntry };

    ghost view = { λ b. map bound b.numbers.entries };
}

impl Bindings {
    /// No names. Takes no memory; `alloc` is kept for later growth.
    pub fn new(alloc: Global) -> Bindings
        ensures { result ≡ [] }
    {
        Bindings {
            numbers: IndexMap::new(alloc),
        }
    }

    /// The number of what the name stands for.
    pub fn find(&self, name: &Name) -> Option<u32>
        ensures { result ≡ entity_of self.now name.now }
    {
        self.numbers.get(name.as_str()).copied()
    }

    /// Adds a name that is not there. After want of memory the names are as before.
    pub fn add(&mut self, alloc: Global, name: &Name, entity: u32) -> Result<(), NoMemory>
        requires { entity_of self.old name.now ≡ None }
        ensures { AddsName self.old self.new name.now entity result }
    {
        let text = String::from_str(alloc, name.as_str())?;
        self.numbers.insert(text, entity)?;
        Ok(())
    }

    /// Adds a name, unless it is there already. After want of memory the names are as before.
    pub fn bind(&mut self, alloc: Global, name: &Name, entity: u32) -> Result<(), NoMemory>
        ensures { Binds self.old self.new name.now entity result }
    {
        if self.find(name).is_some() {
            return Ok(());
        }
        self.add(alloc, name, entity)
    }

    /// How many names there are.
    pub fn len(&self) -> usize
        ensures { result ≡ length self.now }
    {
        self.numbers.len()
    }

    /// Keeps the first names and takes the others out.
    pub fn truncate(&mut self, len: usize)
        ensures { self.new ≡ take len self.old }
    {
        self.numbers.truncate(len);
    }
}
