//! How many multiplications stand at each clock, whatever the clocks.

ghost use Rattle.std.specs.Prelude.{◌≡◌, ◌↔◌, IsTrue, length, IfOk};
ghost use Rattle.dh_sched.specs.Sorts.{CountsWithinLimit, KeepsProducts, MapCountsProduct, count_in};

use crate::kinds::is_product;
use dh_base::NoMemory;
use dh_plan::Operation;
use std::alloc::Global;
use std::collections::BTreeMap;

// Counts one more at a clock, where the limit allows it.
fn count_one(counts: &mut BTreeMap<u128, u32>, clock: u128, limit: u32) -> Result<bool, NoMemory>
    ensures { IfOk result (λ kept. CountsWithinLimit (count_in counts.old) (count_in counts.new) clock limit
        kept) }
{
    let count = match counts.get(&clock) {
        Some(count) => *count,
        None => 0,
    };
    if count >= limit {
        return Ok(false);
    }
    counts.insert(clock, count + 1)?;
    Ok(true)
}

// Counts an operation at its clock, if it is a multiplication, where the limit allows it.
fn count_product(
    counts: &mut BTreeMap<u128, u32>,
    operation: &Operation,
    clock: u128,
    limit: u32,
) -> Result<bool, NoMemory>
    ensures { IfOk result (λ kept. MapCountsProduct operation.now counts.old counts.new clock limit
        kept) }
{
    if is_product(&operation.form) {
        count_one(counts, clock, limit)
    } else {
        Ok(true)
    }
}

/// Whether no clock has more multiplications than the limit allows. Takes n log n steps, since clocks may be any.
pub fn products_are_kept(
    alloc: Global,
    limit: u32,
    operations: &[Operation],
    clocks: &[u128],
) -> Result<bool, NoMemory>
    requires { length clocks.now ≡ length operations.now }
    ensures { IfOk result (λ kept. IsTrue kept ↔ KeepsProducts limit operations.now clocks.now) }
{
    if limit == 0 {
        return Ok(true);
    }
    let mut counts = BTreeMap::new(alloc);
    for (i, operation) in operations.iter().enumerate() {
        if !count_product(&mut counts, operation, clocks[i], limit)? {
            return Ok(false);
        }
    }
    Ok(true)
}
