//! Views without their expressions.

ghost use Rattle.std.specs.Prelude.{◌≡◌, IfOk};

use crate::tables::Shape;
use dh_base::{Items, NoMemory};
use std::alloc::Global;

/// The four sorts of views.
#[derive(Clone, Copy, Debug, PartialEq, Eq)]
pub enum ViewSort {
    /// The same elements in fewer banks.
    Shrink,
    /// One dimension as two: which copy, and which element of its share.
    Split,
    /// The elements from a multiple of the factor on.
    Suffix,
    /// The elements from any offset on.
    Shift,
}

/// A view: its shape, that of what it is a view of, and its factors.
#[derive(Drop)]
pub struct ViewMap {
    /// Its own shape.
    pub shape: Shape,
    /// The shape of the memory or view that it is a view of.
    pub parent: Shape,
    /// Its sort.
    pub sort: ViewSort,
    /// Its factors, one for each dimension of the parent; none of a shift.
    pub by: Items<u64>,
}

/// A view of a program, with the number of its entity.
#[derive(Drop)]
pub struct Viewed {
    /// The number of its entity; every name of a resolved program has one.
    pub entity: Option<u32>,
    /// What it is.
    pub is: ViewMap,
}

impl ViewMap {
    /// An equal one.
    pub fn try_clone(&self, alloc: Global) -> Result<ViewMap, NoMemory>
        ensures { IfOk result (λ copy. copy ≡ self.now) }
    {
        Ok(ViewMap {
            shape: self.shape.try_clone(alloc)?,
            parent: self.parent.try_clone(alloc)?,
            sort: self.sort,
            by: Items::from_vec(Vec::from_slice(alloc, self.by.as_slice())?),
        })
    }
}
