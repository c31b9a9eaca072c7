//! The table of a program's memories.

ghost use Rattle.std.specs.Prelude.{◌≡◌, IfOk, string_bytes};

mod validity;

use dh_base::{Items, NoMemory};
use dh_value::Kind;
use std::alloc::Global;
use std::marker::Model;
use std::rc::Rc;
pub use validity::{element_count, is_table};

/// A name of the language: an ASCII letter or `_`, then ASCII letters, digits and `_`. A contract
/// sees its bytes. Its copies share one text, and each takes one word in tokens and trees.
#[derive(Debug, Drop)]
pub struct Name {
    text: Rc<String>,
}

impl Model for Name {
    ghost use Rattle.std.specs.Prelude.{List, ℕ, string_bytes};

    ghost Value = { List ℕ };

    ghost view = { λ n. string_bytes n.text.value };
}

impl Name {
    /// The name of this text.
    pub fn new(alloc: Global, text: String) -> Result<Name, NoMemory>
        ensures { IfOk result (λ name. name ≡ string_bytes text) }
    {
        let text = Rc::new(alloc, text)?;
        Ok(Name { text })
    }

    /// The name's text.
    pub fn as_str(&self) -> &str
        ensures { result.now ≡ self.now }
    {
        self.text.as_str()
    }

    /// An equal name, which shares the text.
    pub fn try_clone(&self, _alloc: Global) -> Result<Name, NoMemory>
        ensures { IfOk result (λ copy. copy ≡ self.now) }
    {
        let text = self.text.clone()?;
        Ok(Name { text })
    }
}

/// One dimension of a memory: `size` elements, dealt out over `banks` banks. `banks` divides `size`.
#[derive(Clone, Copy, Debug, PartialEq, Eq)]
pub struct Dim {
    /// Elements, at least 1.
    pub size: u64,
    /// Banks, at least 1.
    pub banks: u64,
}

/// The shape of a memory: the kind of its elements, the read/write ports of each bank, and its
/// dimensions from the outside.
#[derive(Drop)]
pub struct Shape {
    /// The kind of an element.
    pub kind: Kind,
    /// Ports of each bank, at least 1.
    pub ports: u64,
    /// The dimensions, the one of the first index first.
    pub dims: Items<Dim>,
}

impl Shape {
    /// An equal shape.
    pub fn try_clone(&self, alloc: Global) -> Result<Shape, NoMemory>
        ensures { IfOk result (λ copy. copy ≡ self.now) }
    {
        let dims = Vec::from_slice(alloc, self.dims.as_slice())?;
        Ok(Shape {
            kind: self.kind,
            ports: self.ports,
            dims: Items::from_vec(dims),
        })
    }
}

/// A memory of a program.
#[derive(Drop)]
pub struct MemEntry {
    /// Its name.
    pub name: Name,
    /// Its shape.
    pub shape: Shape,
    /// Whether it is declared by `decl`, and so lies outside the program's module.
    pub outside: bool,
}

impl MemEntry {
    /// An equal memory.
    pub fn try_clone(&self, alloc: Global) -> Result<MemEntry, NoMemory>
        ensures { IfOk result (λ copy. copy ≡ self.now) }
    {
        Ok(MemEntry {
            name: self.name.try_clone(alloc)?,
            shape: self.shape.try_clone(alloc)?,
            outside: self.outside,
        })
    }
}

/// The memories of a program: those of `decl` in text order, then the local ones. A memory is named
/// by its number in this list, from 0.
pub type MemTable = Items<MemEntry>;

/// An equal table.
pub fn copy_table(alloc: Global, table: &[MemEntry]) -> Result<MemTable, NoMemory>
    ensures { IfOk result (λ copy. copy ≡ table.now) }
{
    let mut copy = Items::new(alloc);
    for entry in table {
        copy.push(entry.try_clone(alloc)?)?;
    }
    Ok(copy)
}
