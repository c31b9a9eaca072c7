//! The blocks of a plan, cut out of the list of all operations.

ghost use Rattle.std.specs.Prelude.{◌≡◌, IfOk, length};
ghost use Rattle.dh_address.specs.Cuts.{AreStarts, IsCutIntoBlocks};

use dh_base::{Items, NoMemory};
use dh_plan::{Operation, PlanBlock};
use std::alloc::Global;

/// The operations from each of these places on, up to the next one, as blocks.
pub fn cut_blocks(
    alloc: Global,
    mut operations: Vec<Operation>,
    starts: &[usize],
) -> Result<Items<PlanBlock>, NoMemory>
    ensures { IfOk result (IsCutIntoBlocks operations.items starts.now) }
{
    let mut blocks = Vec::new(alloc);
    for i in (0..starts.len()).rev() {
        let start = starts[i].min(operations.len());
        let own = operations.split_off(start)?;
        blocks.push(PlanBlock {
            operations: Items::from_vec(own),
        })?;
    }
    blocks.reverse();
    Ok(Items::from_vec(blocks))
}
