//! How many banks, rows and elements a memory has, and where an element lies.

ghost use Rattle.std.specs.Prelude.{◌≡◌, ◌<◌};
ghost use Rattle.dh_tree.specs.Elements.{banks_of, rows_of, position_in_bank};
ghost use Rattle.dh_tree.specs.Tables.{elements_of};
ghost use Rattle.dh_extents.specs.Extents.{AreDims, IsExtent};

use dh_tree::Dim;

/// How many banks, rows of a bank, and elements a memory has.
#[derive(Clone, Copy, PartialEq, Eq)]
pub struct Extent {
    /// The banks.
    pub banks: u64,
    /// The rows of each bank.
    pub rows: u64,
    /// The elements of all banks.
    pub elements: u64,
}

/// How many banks, rows of a bank, and elements a memory of these dimensions has.
pub fn measure(dims: &[Dim]) -> Extent
    requires dims { AreDims dims.now }
    ensures { IsExtent dims.now result }
{
    let [dim, further @ ..] = dims else {
        return Extent {
            banks: 1,
            rows: 1,
            elements: 1,
        };
    };
    let inner = measure(further);
    Extent {
        banks: dim.banks * inner.banks,
        rows: (dim.size / dim.banks) * inner.rows,
        elements: dim.size * inner.elements,
    }
}

/// The place among all elements, in row-major order, of the one in this row of this bank.
pub fn place_in_bank(dims: &[Dim], bank: u64, row: u64) -> u64
    requires dims { AreDims dims.now }
    requires bank { bank < banks_of dims.now }
    requires row { row < rows_of dims.now }
    ensures place { result ≡ position_in_bank dims.now bank row }
    ensures within { result < elements_of dims.now }
{
    let [dim, further @ ..] = dims else {
        return 0;
    };
    let inner = measure(further);
    let index = (row / inner.rows) * dim.banks + bank / inner.banks;
    index * inner.elements + place_in_bank(further, bank % inner.banks, row % inner.rows)
}
