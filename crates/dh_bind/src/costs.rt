//! What each access of a plan charges on each bank: 1 and the greatest place there of its operations. One pass over
//! the operations.

ghost use Rattle.std.specs.Prelude.{◌≡◌, ◌*◌, ◌≤◌, [], ◌∷◌, IfOk, length};
ghost use Rattle.std.specs.List.{AllByRecursion};
ghost use Rattle.dh_plan.specs.Passes.{MayBind};
ghost use Rattle.dh_plan.specs.SeenPlans.{plan_seen};
ghost use Rattle.dh_plan.specs.SoundPlans.{use_in};
ghost use Rattle.dh_bind.specs.Costs.{AreCosts, FitsListed, FitsRows, NotesBlocks, NotesIn, Raised, costs_in};
ghost use Rattle.dh_bind.specs.Drafts.{AllUses, UsedBy, all_operations, cell_of};

use crate::operations::{rows_needed, use_of, width_needed};
use crate::tables::{nothing, places, zeros};
use dh_base::NoMemory;
use dh_plan::{Operation, Plan, PlanBlock, Reach};
use std::alloc::Global;

/// Of each access its memory, where an operation uses it, and a row of counts, one for each bank up to the greatest
/// that is listed.
#[derive(Drop)]
pub struct CostTables {
    /// How wide a row is.
    pub wide: usize,
    pub memories: Vec<Option<u32>>,
    pub counts: Vec<u32>,
}

/// Notes the banks that an operation lists, in the row of its access.
fn note_banks(counts: &mut [u32], wide: usize, reach: &Reach)
    requires wide { wide ≤ 64 }
    requires row { cell_of wide reach.now.access wide ≤ length counts.old }
    requires fit { AllByRecursion (FitsListed wide) reach.now.banks }
    ensures { Raised (reach.now.access * wide) wide reach.now.banks counts.old counts.new }
{
    let row = places(reach.access as usize, wide);
    for listed in reach.banks.as_slice() {
        let at = row + listed.0 as usize;
        counts[at] = counts[at].max(listed.1 + 1);
    }
}

/// Notes what an operation uses.
fn note_operation(
    memories: &mut [Option<u32>],
    counts: &mut [u32],
    wide: usize,
    operation: &Operation,
)
    requires wide { wide ≤ 64 }
    requires cells { length counts.old ≡ length memories.old * wide }
    requires fits { UsedBy (FitsRows (length memories.old) wide) (use_in operation.now.form) }
    ensures { NotesIn wide (operation.now ∷ [])
        memories.old counts.old memories.new counts.new }
{
    match use_of(operation) {
        Some(reach) => {
            memories[reach.access as usize] = Some(reach.memory);
            note_banks(counts, wide, reach);
        }
        None => {}
    }
}

/// Notes what operations use.
fn note_operations(
    memories: &mut [Option<u32>],
    counts: &mut [u32],
    wide: usize,
    operations: &[Operation],
)
    requires wide { wide ≤ 64 }
    requires cells { length counts.old ≡ length memories.old * wide }
    requires fits { AllUses (FitsRows (length memories.old) wide) operations.now }
    ensures { NotesIn wide operations.now memories.old counts.old memories.new counts.new }
{
    for operation in operations {
        note_operation(memories, counts, wide, operation);
    }
}

/// Notes what the operations of blocks use.
fn note_blocks(memories: &mut [Option<u32>], counts: &mut [u32], wide: usize, blocks: &[PlanBlock])
    requires wide { wide ≤ 64 }
    requires cells { length counts.old ≡ length memories.old * wide }
    requires fits { AllUses (FitsRows (length memories.old) wide) (all_operations blocks.now) }
    ensures { NotesBlocks wide blocks.now memories.old counts.old memories.new counts.new }
{
    for block in blocks {
        note_operations(memories, counts, wide, block.operations.as_slice());
    }
}

/// `note_blocks` of vectors.
fn note_all(
    memories: &mut Vec<Option<u32>>,
    counts: &mut Vec<u32>,
    wide: usize,
    blocks: &[PlanBlock],
)
    requires wide { wide ≤ 64 }
    requires cells { length counts.old.items ≡ length memories.old.items * wide }
    requires fits { AllUses (FitsRows (length memories.old.items) wide)
        (all_operations blocks.now) }
    ensures { NotesBlocks wide blocks.now
        memories.old.items counts.old.items memories.new.items counts.new.items }
{
    note_blocks(memories.as_mut_slice(), counts.as_mut_slice(), wide, blocks);
}

/// What the accesses of a plan charge.
pub fn costs_of(alloc: Global, plan: &Plan) -> Result<CostTables, NoMemory>
    requires { MayBind (plan_seen plan.now) }
    ensures { IfOk result (λ c. AreCosts (plan_seen plan.now)
        (costs_in c.wide c.memories.items c.counts.items)) }
{
    let blocks = plan.blocks.as_slice();
    let rows = rows_needed(blocks);
    let wide = width_needed(blocks);
    let mut memories = nothing(alloc, rows)?;
    let mut counts = zeros(alloc, places(rows, wide))?;
    note_all(&mut memories, &mut counts, wide, blocks);
    Ok(CostTables {
        wide,
        memories,
        counts,
    })
}
