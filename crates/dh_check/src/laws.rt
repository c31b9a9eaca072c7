//! What holds of all programs that are ready, stated on a function that does nothing.

ghost use Rattle.dh_tree.specs.Memories.{table_of};
ghost use Rattle.dh_tree.specs.PlainTrees.{Program};
ghost use Rattle.dh_tree.specs.Ready.{IsReady};
ghost use Rattle.dh_tree.specs.Shapes.{IsProgramTable};

use dh_tree::kept_programs_have_tables;

/// The memories of a ready program are a table.
pub fn ready_programs_have_tables()
    ensures { (p : Program) → IsReady p → IsProgramTable (table_of p) }
{
    kept_programs_have_tables();
}
