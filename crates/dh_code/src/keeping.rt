//! A value that stands apart from what holds it, so that this stays small.

ghost use Rattle.std.specs.Prelude.{◌≡◌, IfOk};

use dh_base::NoMemory;
use std::alloc::Global;
use std::marker::Model;

/// A value in memory of its own. Unlike a `Box`, which a clause sees with its pointer and its
/// allocator, it is for a contract the value and nothing more.
#[derive(Drop)]
pub struct Apart<T> {
    inner: Box<T>,
}

impl<T> Model for Apart<T> {
    ghost Value = { T };

    ghost view = { λ a. a.inner.value };
}

impl<T> Apart<T> {
    /// The value in memory of its own.
    ///
    /// # Errors
    ///
    /// `NoMemory` where an allocation was refused.
    pub fn new(alloc: Global, value: T) -> Result<Apart<T>, NoMemory>
    where
        T: Drop,
        ensures { IfOk result (λ kept. kept ≡ value) }
    {
        let inner = Box::new(alloc, value)?;
        Ok(Apart { inner })
    }

    /// The value.
    pub fn content(&self) -> &T
        ensures { result.now ≡ self.now }
    {
        self.inner.as_ref()
    }
}
