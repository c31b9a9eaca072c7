//! Cells that choose between wires. They are added behind the cells of a net.

ghost use Rattle.std.specs.Prelude.{IfOk};
ghost use Rattle.dh_net.specs.Valid.{HasWidth};
ghost use Rattle.dh_join.specs.AddedCells.{CellAdded, ChoiceAdded, EitherAdded};

use dh_base::{Items, NoMemory};
use dh_net::{Cell, CellForm};

/// Adds a cell, and answers the wire that it drives.
fn push_cell(cells: &mut Items<Cell>, width: u8, form: CellForm) -> Result<u64, NoMemory>
    ensures { IfOk result (λ wire. CellAdded cells.old cells.new width form wire) }
{
    let wire = cells.len() as u64;
    cells.push(Cell { width, form })?;
    Ok(wire)
}

/// Adds a wire of one bit that is 1 where one of the two is.
pub fn push_either(cells: &mut Items<Cell>, a: u64, b: u64) -> Result<u64, NoMemory>
    requires left { HasWidth cells.old a 1 }
    requires right { HasWidth cells.old b 1 }
    ensures { IfOk result (λ wire. EitherAdded cells.old cells.new a b wire) }
{
    push_cell(cells, 1, CellForm::Or { a, b })
}

/// A wire of this width that shows `a` where the test is 1, else `b`. Of one wire twice it is that wire.
pub fn push_choice(
    cells: &mut Items<Cell>,
    width: u8,
    test: u64,
    a: u64,
    b: u64,
) -> Result<u64, NoMemory>
    requires test { HasWidth cells.old test 1 }
    requires left { HasWidth cells.old a width }
    requires right { HasWidth cells.old b width }
    ensures { IfOk result (λ wire. ChoiceAdded cells.old cells.new width test a b wire) }
{
    if a == b {
        Ok(a)
    } else {
        push_cell(cells, width, CellForm::Mux { c: test, a, b })
    }
}
