//! Where the elements of memories lie.

ghost use Rattle.std.specs.Prelude.{◌≡◌, ◌≤◌, length};
ghost use Rattle.std.specs.List.{AllByRecursion};
ghost use Rattle.dh_tree.specs.Elements.{banks_of};
ghost use Rattle.dh_tree.specs.Shapes.{IsDim, most_banks};
ghost use Rattle.dh_tree.specs.Tables.{elements_of, most_elements};
ghost use Rattle.dh_shape.specs.Placed.{place_of_element};

use dh_tree::Shape;

/// The bank of an element, below the banks of all dimensions together, and its row there, below the
/// rows of a bank: element i of a dimension of m banks is in bank i mod m and row i div m, row-major
/// over the dimensions. None where an index is not below its dimension's size.
pub fn bank_row(shape: &Shape, index: &[u64]) -> Option<(u32, u32)>
    requires dims { AllByRecursion IsDim shape.now.dims }
    requires banks { banks_of shape.now.dims ≤ most_banks }
    requires elements { elements_of shape.now.dims ≤ most_elements }
    requires indices { length index.now ≡ length shape.now.dims }
    ensures { result ≡ place_of_element shape.now index.now }
{
    let mut bank = 0;
    let mut row = 0;
    for (dim, element) in shape.dims.as_slice().iter().zip(index.iter()) {
        if *element >= dim.size {
            return None;
        }
        bank = bank * dim.banks + *element % dim.banks;
        row = row * (dim.size / dim.banks) + *element / dim.banks;
    }
    Some((bank as u32, row as u32))
}
