//! The ports of operations, from the first ports of their accesses.

ghost use Rattle.std.specs.Prelude.{◌≡◌, ◌+◌, ◌<◌, ◌≤◌, ◌^◌, ◌++◌, ℕ, [], Some, IfOk, OnOk, length};
ghost use Rattle.dh_plan.specs.SoundPlans.{use_in};
ghost use Rattle.dh_bind.specs.Drafts.{AllUses, UsedBy, FitsPairs, pair_with, pairs_of, use_pairs, all_pairs};

use crate::operations::use_of;
use crate::tables::places;
use dh_base::{Items, NoMemory};
use dh_plan::{Operation, Reach};
use std::alloc::Global;

/// Adds the port of a bank, where one was granted there.
fn push_pair(
    pairs: &mut Items<(u32, u32)>,
    first: Option<u32>,
    listed: (u32, u32),
) -> Result<(), NoMemory>
    requires { (n : ℕ) → first ≡ Some n → n + listed.1 < 2 ^ 32 }
    ensures { OnOk result (pairs.new ≡ pairs.old ++ pair_with first listed []) }
{
    match first {
        Some(first) => pairs.push((listed.0, first + listed.1)),
        None => Ok(()),
    }
}

/// The ports of an operation of an access on the banks that it lists.
fn pairs_at(
    alloc: Global,
    wide: usize,
    firsts: &[Option<u32>],
    reach: &Reach,
) -> Result<Items<(u32, u32)>, NoMemory>
    requires wide { wide ≤ 64 }
    requires fits { FitsPairs wide firsts.now reach.now }
    ensures { IfOk result
        (λ pairs. pairs ≡ pairs_of wide firsts.now reach.now.access reach.now.banks) }
{
    let row = places(reach.access as usize, wide);
    let mut pairs = Items::new(alloc);
    for listed in reach.banks.as_slice() {
        push_pair(&mut pairs, firsts[row + listed.0 as usize], *listed)?;
    }
    Ok(pairs)
}

/// The ports of an operation.
fn pairs_for(
    alloc: Global,
    wide: usize,
    firsts: &[Option<u32>],
    operation: &Operation,
) -> Result<Items<(u32, u32)>, NoMemory>
    requires wide { wide ≤ 64 }
    requires fits { UsedBy (FitsPairs wide firsts.now) (use_in operation.now.form) }
    ensures { IfOk result (λ pairs. pairs ≡ use_pairs wide firsts.now (use_in operation.now.form)) }
{
    match use_of(operation) {
        Some(reach) => pairs_at(alloc, wide, firsts, reach),
        None => Ok(Items::new(alloc)),
    }
}

/// Adds the ports of operations.
pub fn push_pairs(
    alloc: Global,
    wide: usize,
    firsts: &[Option<u32>],
    operations: &[Operation],
    all: &mut Items<Items<(u32, u32)>>,
) -> Result<(), NoMemory>
    requires wide { wide ≤ 64 }
    requires fits { AllUses (FitsPairs wide firsts.now) operations.now }
    ensures { OnOk result (all.new ≡ all.old ++ all_pairs wide firsts.now operations.now) }
{
    for operation in operations {
        let pairs = pairs_for(alloc, wide, firsts, operation)?;
        all.push(pairs)?;
    }
    Ok(())
}
