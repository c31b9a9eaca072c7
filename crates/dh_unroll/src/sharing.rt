//! The earlier reads that accesses share, as the makers of operations take them.

ghost use Rattle.std.specs.Prelude.{◌≡◌, map, IfOk};
ghost use Rattle.std.specs.Option.{option_map};
ghost use Rattle.dh_unroll.specs.Shares.{narrow_share, narrow_shares};

use dh_base::NoMemory;
use dh_expressions::narrow;
use std::alloc::Global;

/// A number in 32 bits, if there is one.
fn narrow_share(share: Option<usize>) -> Option<u32>
    ensures { result ≡ narrow_share share }
{
    match share {
        Some(earlier) => Some(narrow(earlier as u64)),
        None => None,
    }
}

/// Numbers of accesses in 32 bits.
pub fn narrow_shares(alloc: Global, shares: &[Option<usize>]) -> Result<Vec<Option<u32>>, NoMemory>
    ensures { IfOk result (λ narrowed. narrowed.items ≡ narrow_shares shares.now) }
{
    let mut narrowed = Vec::with_capacity(alloc, shares.len())?;
    for share in shares {
        narrowed.push(narrow_share(*share))?;
    }
    Ok(narrowed)
}
