//! Copies in unrolled loops, by the numbers of their paths: the copies of the last loop change first.

ghost use Rattle.std.specs.Prelude.{◌≡◌, ◌≤◌, ◌+◌, ◌%◌, ◌<◌, Some};
ghost use Rattle.std.specs.List.{AllByRecursion};
ghost use Rattle.dh_tree.specs.Elements.{banks_of};
ghost use Rattle.dh_tree.specs.Shapes.{most_banks, IsDim};
ghost use Rattle.dh_meets.specs.Charges.{loop_factors};
ghost use Rattle.dh_base.specs.Limits.{most_copies};
ghost use Rattle.dh_ports.specs.Banks.{copy_of, path_of_number};
ghost use Rattle.dh_ports.specs.Copies.{copies_round};
ghost use Rattle.dh_size.specs.NumberedPaths.{index_numbered, indexed_bank};

use dh_ports::residue_of_copy;
use dh_shape::{IndexKind, classify};
use dh_tree::{Counter, Dim, Expr, Typed};

/// The copies of what stands in these loops.
pub fn copies_in(loops: &[Counter]) -> u64
    requires few { copies_round loops.now ≤ most_copies }
    ensures { result ≡ copies_round loops.now }
{
    let mut copies: u64 = 1;
    for counter in loops {
        copies = copies.saturating_mul(counter.factor);
    }
    copies
}

/// The copy of the loop of an iterator at the path of a number; 0 where no loop has it.
fn copy_at(loops: &[Counter], copies: u64, number: u64, iterator: u32) -> u64
    requires copies { copies ≡ copies_round loops.now }
    requires some { 1 ≤ copies }
    ensures { result ≡ copy_of loops.now (path_of_number (loop_factors loops.now) number) (Some iterator) }
{
    let mut stride = copies;
    for counter in loops {
        stride = stride / counter.factor;
        if counter.entity == Some(iterator) {
            return number / stride % counter.factor;
        }
    }
    0
}

/// Which of so many banks of a dimension an index tells at the path of a number.
fn residue_at(
    typed: &Typed,
    loops: &[Counter],
    copies: u64,
    number: u64,
    index: &Expr,
    banks: u64,
) -> u64
    requires copies { copies ≡ copies_round loops.now }
    requires some { 1 ≤ copies }
    requires banks { 1 ≤ banks }
    ensures { result ≡ index_numbered typed.now loops.now number index.now % banks }
{
    match classify(typed, index) {
        IndexKind::Constant(value) => residue_of_copy(0, value, 0, banks),
        IndexKind::Iterator { entity, offset } => match typed.counter(entity) {
            Some(counter) => {
                let copy = copy_at(loops, copies, number, entity);
                residue_of_copy(counter.low, offset, copy, banks)
            }
            None => 0,
        },
        IndexKind::Dynamic => residue_of_copy(0, 0, 0, banks),
    }
}

/// The bank that indices tell at the path of a number, row-major over the dimensions. Where a dimension has one
/// bank, its index tells nothing.
pub fn bank_at(
    typed: &Typed,
    loops: &[Counter],
    copies: u64,
    number: u64,
    dims: &[Dim],
    indices: &[Expr],
) -> u64
    requires dims { AllByRecursion IsDim dims.now }
    requires few { banks_of dims.now ≤ most_banks }
    requires copies { copies ≡ copies_round loops.now }
    requires some { 1 ≤ copies }
    ensures { result ≡ indexed_bank typed.now loops.now number dims.now indices.now }
{
    let mut bank: u64 = 0;
    let mut count: u64 = 1;
    for i in (0..dims.len()).rev() {
        let banks = dims[i].banks;
        if i < indices.len() && banks > 1 {
            let residue = residue_at(typed, loops, copies, number, &indices[i], banks);
            bank = residue * count + bank;
        }
        count = banks * count;
    }
    bank
}
