//! Tables in which nothing stands yet, and how many places they have.

ghost use Rattle.std.specs.Prelude.{◌≡◌, ◌*◌, ◌≤◌, ◌^◌, None, IfOk, replicate};

use dh_base::NoMemory;
use std::alloc::Global;

/// How many places so many rows have, each of so many banks.
pub fn places(rows: usize, wide: usize) -> usize
    requires rows { rows ≤ 2 ^ 32 }
    requires wide { wide ≤ 64 }
    ensures number { result ≡ rows * wide }
    ensures fits { result ≤ 2 ^ 38 }
{
    rows * wide
}

/// So many times None.
pub fn nothing(alloc: Global, count: usize) -> Result<Vec<Option<u32>>, NoMemory>
    ensures { IfOk result (λ v. v.items ≡ replicate count None) }
{
    let table = vec![in alloc; None; count]?;
    Ok(table)
}

/// So many zeros.
pub fn zeros(alloc: Global, count: usize) -> Result<Vec<u32>, NoMemory>
    ensures { IfOk result (λ v. v.items ≡ replicate count 0) }
{
    let table = vec![in alloc; 0u32; count]?;
    Ok(table)
}
