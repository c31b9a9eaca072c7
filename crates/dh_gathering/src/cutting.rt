//! The blocks of a plan, cut out of the list of all operations.

ghost use Rattle.std.specs.Prelude.{IfOk};
ghost use Rattle.dh_gathering.specs.Cutting.{IsCutAtStarts};

use dh_base::{Items, NoMemory};
use dh_plan::{Operation, PlanBlock};
use std::alloc::Global;

/// The operations from each of these places on, up to the next one, as blocks. Places that do not rise are cut as
/// far as there are operations.
///
/// # Errors
///
/// `NoMemory` where an allocation was refused.
pub fn cut(
    alloc: Global,
    mut operations: Vec<Operation>,
    starts: &[usize],
) -> Result<Items<PlanBlock>, NoMemory>
    ensures { IfOk result (λ blocks. IsCutAtStarts operations.items starts.now blocks) }
{
    let mut blocks = Vec::new(alloc);
    for i in (0..starts.len()).rev() {
        let start = starts[i].min(operations.len());
        let own = operations.split_off(start)?;
        blocks.push(PlanBlock {
            operations: Items::from_vec(own),
        })?;
    }
    blocks.reverse();
    Ok(Items::from_vec(blocks))
}
