//! The contents of a program's memories.

ghost use Rattle.std.specs.Prelude.{◌≡◌, map};

use std::marker::Model;

/// The contents of memories: one list per memory of a table, its elements in row-major order, each
/// as its bits. A contract sees a list of lists.
#[derive(Drop)]
pub struct Memories {
    values: Vec<Vec<u64>>,
}

impl Model for Memories {
    ghost use Rattle.std.specs.Prelude.{List, ℕ, map};

    ghost Value = { List (List ℕ) };

    ghost view = { λ m. map (λ v. v.items) m.values.items };
}

impl Memories {
    /// The contents that these lists hold.
    pub fn new(values: Vec<Vec<u64>>) -> Memories
        ensures { result ≡ map (λ v. v.items) values.items }
    {
        Memories { values }
    }

    /// The lists, one per memory.
    pub fn into_lists(self) -> Vec<Vec<u64>>
        ensures { map (λ v. v.items) result.items ≡ self }
    {
        self.values
    }

    /// The lists, one per memory.
    pub fn lists(&self) -> &[Vec<u64>]
        ensures { map (λ v. v.items) result.now ≡ self.now }
    {
        self.values.as_slice()
    }
}
