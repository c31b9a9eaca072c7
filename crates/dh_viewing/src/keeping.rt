//! Whether shapes keep the rules.

ghost use Rattle.std.specs.Prelude.{◌≡◌};
ghost use Rattle.dh_tree.specs.Indices as definitions;

use dh_tree::{Dim, Shape};

/// Whether a number of banks or of copies divides a size; 0 divides none.
pub fn divides(banks: u64, size: u64) -> bool
    ensures { result ≡ definitions.divides banks size }
{
    banks != 0 && size % banks == 0
}

/// Whether dimensions break no rule.
fn dims_keep(dims: &[Dim]) -> bool
    ensures { result ≡ definitions.dims_keep dims.now }
{
    for dim in dims {
        if dim.size == 0 || !divides(dim.banks, dim.size) {
            return false;
        }
    }
    true
}

/// Whether a shape breaks no rule.
pub fn shape_keeps(shape: &Shape) -> bool
    ensures { result ≡ definitions.shape_keeps shape.now }
{
    shape.ports != 0 && dims_keep(shape.dims.as_slice())
}
