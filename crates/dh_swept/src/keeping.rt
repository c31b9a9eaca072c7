//! Cells, registers and drivers by new numbers of what they take.

ghost use Rattle.std.specs.Prelude.{◌≡◌, length, IfOk};
ghost use Rattle.dh_swept.specs.KeptCells.{AreBelow, KeepsCells, KeepsDrivers, KeepsRegisters, new_number_in};
ghost use Rattle.dh_swept.specs.RenamedWires.{renamed_cell, renamed_driver, renamed_drivers, renamed_form, renamed_register};

use crate::numbering::number_of;
use dh_base::{Items, NoMemory};
use dh_net::{Cell, CellForm, Driver, Register};
use std::alloc::Global;

/// A form by new numbers.
fn rename_form(to: &[u64], to_register: &[u64], form: CellForm) -> CellForm
    ensures { result ≡ renamed_form (new_number_in to.now) (new_number_in to_register.now) form }
{
    match form {
        CellForm::Const { bits } => CellForm::Const { bits },
        CellForm::Reg { register } => CellForm::Reg {
            register: number_of(to_register, register),
        },
        CellForm::Data { memory, bank, port } => CellForm::Data { memory, bank, port },
        CellForm::Add { a, b } => CellForm::Add {
            a: number_of(to, a),
            b: number_of(to, b),
        },
        CellForm::Sub { a, b } => CellForm::Sub {
            a: number_of(to, a),
            b: number_of(to, b),
        },
        CellForm::Mul { a, b } => CellForm::Mul {
            a: number_of(to, a),
            b: number_of(to, b),
        },
        CellForm::And { a, b } => CellForm::And {
            a: number_of(to, a),
            b: number_of(to, b),
        },
        CellForm::Or { a, b } => CellForm::Or {
            a: number_of(to, a),
            b: number_of(to, b),
        },
        CellForm::Xor { a, b } => CellForm::Xor {
            a: number_of(to, a),
            b: number_of(to, b),
        },
        CellForm::Shl { a, b } => CellForm::Shl {
            a: number_of(to, a),
            b: number_of(to, b),
        },
        CellForm::ShrU { a, b } => CellForm::ShrU {
            a: number_of(to, a),
            b: number_of(to, b),
        },
        CellForm::ShrS { a, b } => CellForm::ShrS {
            a: number_of(to, a),
            b: number_of(to, b),
        },
        CellForm::LtU { a, b } => CellForm::LtU {
            a: number_of(to, a),
            b: number_of(to, b),
        },
        CellForm::LtS { a, b } => CellForm::LtS {
            a: number_of(to, a),
            b: number_of(to, b),
        },
        CellForm::Eq { a, b } => CellForm::Eq {
            a: number_of(to, a),
            b: number_of(to, b),
        },
        CellForm::Mux { c, a, b } => CellForm::Mux {
            c: number_of(to, c),
            a: number_of(to, a),
            b: number_of(to, b),
        },
        CellForm::Zero { a } => CellForm::Zero {
            a: number_of(to, a),
        },
        CellForm::Sign { a } => CellForm::Sign {
            a: number_of(to, a),
        },
        CellForm::Low { a } => CellForm::Low {
            a: number_of(to, a),
        },
    }
}

/// A cell by new numbers of what it takes.
fn rename_cell(to: &[u64], to_register: &[u64], cell: Cell) -> Cell
    ensures { result ≡ renamed_cell (new_number_in to.now) (new_number_in to_register.now) cell }
{
    Cell {
        width: cell.width,
        form: rename_form(to, to_register, cell.form),
    }
}

/// The cells with these old numbers.
pub fn keep_cells(
    alloc: Global,
    at: &[u64],
    to: &[u64],
    to_register: &[u64],
    cells: &[Cell],
) -> Result<Items<Cell>, NoMemory>
    requires { AreBelow (length cells.now) at.now }
    ensures { IfOk result (λ kept. KeepsCells at.now to.now to_register.now cells.now kept) }
{
    let mut kept = Items::with_room(alloc, at.len())?;
    for j in 0..at.len() {
        let old = at[j] as usize;
        kept.push(rename_cell(to, to_register, cells[old]))?;
    }
    Ok(kept)
}

/// A register that takes its wire by the new number.
fn rename_register(to: &[u64], register: Register) -> Register
    ensures { result ≡ renamed_register (new_number_in to.now) register }
{
    Register {
        width: register.width,
        initial: register.initial,
        next: number_of(to, register.next),
    }
}

/// The registers with these old numbers.
pub fn keep_registers(
    alloc: Global,
    at: &[u64],
    to: &[u64],
    registers: &[Register],
) -> Result<Items<Register>, NoMemory>
    requires { AreBelow (length registers.now) at.now }
    ensures { IfOk result (λ kept. KeepsRegisters at.now to.now registers.now kept) }
{
    let mut kept = Items::with_room(alloc, at.len())?;
    for j in 0..at.len() {
        let old = at[j] as usize;
        kept.push(rename_register(to, registers[old]))?;
    }
    Ok(kept)
}

/// A driver that takes wires by new numbers; a read takes no data.
fn rename_driver(to: &[u64], driver: Driver) -> Driver
    ensures { result ≡ renamed_driver (new_number_in to.now) driver }
{
    let data_ = if driver.write {
        number_of(to, driver.data_)
    } else {
        0
    };
    Driver {
        enable: number_of(to, driver.enable),
        write: driver.write,
        row: number_of(to, driver.row),
        data_,
    }
}

/// The drivers of a port.
fn rename_list(alloc: Global, to: &[u64], drivers: &[Driver]) -> Result<Items<Driver>, NoMemory>
    ensures { IfOk result (λ renamed. renamed ≡ renamed_drivers (new_number_in to.now) drivers.now) }
{
    let mut renamed = Items::with_room(alloc, drivers.len())?;
    for driver in drivers {
        renamed.push(rename_driver(to, *driver))?;
    }
    Ok(renamed)
}

/// The drivers of all ports.
pub fn rename_drivers(
    alloc: Global,
    to: &[u64],
    lists: &[Items<Driver>],
) -> Result<Items<Items<Driver>>, NoMemory>
    ensures { IfOk result (λ renamed. KeepsDrivers to.now lists.now renamed) }
{
    let mut renamed = Items::with_room(alloc, lists.len())?;
    for list in lists {
        let drivers = rename_list(alloc, to, list.as_slice())?;
        renamed.push(drivers)?;
    }
    Ok(renamed)
}
