//! What holds of data files whatever is read.

ghost use Rattle.std.specs.Prelude.{List, ℕ};
ghost use Rattle.dh_tree.specs.declared.tables.MemEntry.{MemEntry};
ghost use Rattle.dh_data.specs.DataFiles.{HasOneMeaning};

/// Bytes mean at most one thing for a table: one list of contents, or one first fault.
pub fn bytes_mean_one_thing()
    ensures { (table : List MemEntry) (bytes : List ℕ) → HasOneMeaning table bytes }
{}
