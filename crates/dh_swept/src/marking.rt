//! Which cells and registers of a net are needed.

ghost use Rattle.std.specs.Prelude.{◌≡◌, slice_get, IfOk, OnOk};
ghost use Rattle.dh_swept.specs.FoundWires.{unmarked, with_held, with_mark, with_marks, with_taken, with_wire};
ghost use Rattle.dh_swept.specs.NeededCells.{CanMark, MarksNeeded, all_drivers_wires, driver_wires, drivers_wires, root_wires};

use crate::flags::Flags;
use dh_base::{Items, NoMemory};
use dh_net::{CellForm, Driver, Net, Register};
use std::alloc::Global;

/// What is known to be needed of a net.
#[derive(Drop)]
pub struct Marks {
    /// The wires that are needed, and so their cells.
    pub wires: Flags,
    /// The registers that are.
    pub registers: Flags,
    /// Those wires, in the order in which they were found.
    pub found: Items<u64>,
}

/// Nothing of a net is marked, and there is room for all its wires.
fn no_marks(alloc: Global, net: &Net) -> Result<Marks, NoMemory>
    ensures { IfOk result (λ marks. marks ≡ unmarked net.now) }
{
    let wires = Flags::none(alloc, net.cells.len())?;
    let registers = Flags::none(alloc, net.registers.len())?;
    let found = Items::with_room(alloc, net.cells.len())?;
    Ok(Marks {
        wires,
        registers,
        found,
    })
}

/// Marks a wire, where it is there. If it had no mark, it is found.
fn mark(marks: &mut Marks, wire: u64) -> Result<(), NoMemory>
    ensures { OnOk result (marks.new ≡ with_mark wire marks.old) }
{
    if !marks.wires.has(wire) {
        marks.wires.set(wire);
        marks.found.push(wire)?;
    }
    Ok(())
}

/// Marks a register, and the wire that it takes.
fn mark_register(marks: &mut Marks, registers: &[Register], register: u64) -> Result<(), NoMemory>
    ensures { OnOk result (marks.new ≡ with_held registers.now register marks.old) }
{
    marks.registers.set(register);
    if let Some(taken) = registers.get(register as usize) {
        mark(marks, taken.next)?;
    }
    Ok(())
}

/// Marks the wires that a form takes, and the register that it shows with the wire that this takes.
fn mark_taken(marks: &mut Marks, registers: &[Register], form: CellForm) -> Result<(), NoMemory>
    ensures { OnOk result (marks.new ≡ with_taken registers.now form marks.old) }
{
    match form {
        CellForm::Const { .. } | CellForm::Data { .. } => {}
        CellForm::Reg { register } => mark_register(marks, registers, register)?,
        CellForm::Add { a, b }
        | CellForm::Sub { a, b }
        | CellForm::Mul { a, b }
        | CellForm::And { a, b }
        | CellForm::Or { a, b }
        | CellForm::Xor { a, b }
        | CellForm::Shl { a, b }
        | CellForm::ShrU { a, b }
        | CellForm::ShrS { a, b }
        | CellForm::LtU { a, b }
        | CellForm::LtS { a, b }
        | CellForm::Eq { a, b } => {
            mark(marks, a)?;
            mark(marks, b)?;
        }
        CellForm::Mux { c, a, b } => {
            mark(marks, c)?;
            mark(marks, a)?;
            mark(marks, b)?;
        }
        CellForm::Zero { a } | CellForm::Sign { a } | CellForm::Low { a } => mark(marks, a)?,
    }
    Ok(())
}

/// Marks the wires that a driver takes.
fn mark_driver(marks: &mut Marks, driver: Driver) -> Result<(), NoMemory>
    ensures { OnOk result (marks.new ≡ with_marks (driver_wires driver) marks.old) }
{
    mark(marks, driver.enable)?;
    mark(marks, driver.row)?;
    if driver.write {
        mark(marks, driver.data_)?;
    }
    Ok(())
}

/// Marks the wires that the drivers of a port take.
fn mark_drivers(marks: &mut Marks, drivers: &[Driver]) -> Result<(), NoMemory>
    ensures { OnOk result (marks.new ≡ with_marks (drivers_wires drivers.now) marks.old) }
{
    for driver in drivers {
        mark_driver(marks, *driver)?;
    }
    Ok(())
}

/// Marks the wires that the drivers of all ports take.
fn mark_ports(marks: &mut Marks, lists: &[Items<Driver>]) -> Result<(), NoMemory>
    ensures { OnOk result (marks.new ≡ with_marks (all_drivers_wires lists.now) marks.old) }
{
    for list in lists {
        mark_drivers(marks, list.as_slice())?;
    }
    Ok(())
}

/// Marks what a net needs whatever its cells and registers are.
fn mark_roots(marks: &mut Marks, net: &Net) -> Result<(), NoMemory>
    ensures { OnOk result (marks.new ≡ with_marks (root_wires net.now) marks.old) }
{
    mark(marks, net.tick)?;
    mark(marks, net.done)?;
    mark(marks, net.fault)?;
    mark_ports(marks, net.drivers.as_slice())?;
    Ok(())
}

/// Marks what the cell of a wire that was found needs, if as many were found.
fn mark_behind(marks: &mut Marks, net: &Net, place: usize) -> Result<(), NoMemory>
    ensures { OnOk result (marks.new
        ≡ with_wire net.now (slice_get marks.old.found place) marks.old) }
{
    let wire = match marks.found.as_slice().get(place) {
        Some(wire) => *wire,
        None => return Ok(()),
    };
    if let Some(cell) = net.cells.as_slice().get(wire as usize) {
        mark_taken(marks, net.registers.as_slice(), cell.form)?;
    }
    Ok(())
}

/// Marks what the wires that were found need, and those that are found by that. Each is found once, so there are at most
/// as many as cells.
fn mark_found(marks: &mut Marks, net: &Net) -> Result<(), NoMemory>
    requires rooted { marks.old ≡ with_marks (root_wires net.now) (unmarked net.now) }
    requires can { CanMark net.now }
    ensures { OnOk result (MarksNeeded net.now marks.new) }
{
    for place in 0..net.cells.len() {
        mark_behind(marks, net, place)?;
    }
    Ok(())
}

/// Marks the cells and the registers that a net needs: those that its outputs and the drivers of its ports take, and what
/// these take. Time and memory are linear.
pub fn mark_needed(alloc: Global, net: &Net) -> Result<Marks, NoMemory>
    requires { CanMark net.now }
    ensures { IfOk result (λ marks. MarksNeeded net.now marks) }
{
    let mut marks = no_marks(alloc, net)?;
    mark_roots(&mut marks, net)?;
    mark_found(&mut marks, net)?;
    Ok(marks)
}
