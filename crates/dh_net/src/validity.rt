//! When a net is valid: widths agree, and whatever is named is there and earlier.

ghost use Rattle.std.specs.Prelude.{◌≡◌, ℕ, ◌<◌, ◌≤◌, ◌^◌, ◌↔◌, IsTrue, length};
ghost use Rattle.std.specs.List.{AllByRecursion};
ghost use Rattle.dh_tree.specs.Shapes.{IsProgramTable};
ghost use Rattle.dh_value.specs.Words.{width_of};
ghost use Rattle.dh_net.specs.BankPorts.{port_count, all_ports, ports_of};
ghost use Rattle.dh_net.specs.Clock.{wire_width as width_at};
ghost use Rattle.dh_extents.specs.Extents.{IsSmallMemory};
ghost use Rattle.dh_net.specs.RowWidths.{IsRowWidth};
ghost use Rattle.dh_net.specs.Valid.{HasWidth, IsOperand, IsAnyOperand, AreOperands, AreSameWidthOperands, IsNarrower, IsWider, IsPort, IsRegister, IsDriver, IsValid};
ghost use Rattle.dh_net.specs.Parts.{HasRegister, FitsIn, IsCellIn, HasCells, HasValidRegisters, DrivePort, DrivePorts, HasPorts, HasOutputs};

use crate::nets::{Cell, CellForm, Driver, Net, Register};
use crate::ports::{Port, count_ports, memory_port};
use crate::tables::is_program_table;
use dh_base::Items;
use dh_extents::measure;
use dh_tree::{Kind, MemEntry};

/// The bits of the numbers of so many rows: the least width of at least 1 that has them all, from 1
/// to 64.
pub fn row_width(rows: u64) -> u8
    ensures { IsRowWidth rows result }
{
    for width in 1..64 {
        if rows <= 1 << width {
            return width;
        }
    }
    64
}

/// The width of a wire, 0 where there is no such wire.
pub fn wire_width(cells: &[Cell], wire: u64) -> u8
    ensures { result ≡ width_at cells.now wire }
{
    match cells.get(wire as usize) {
        Some(cell) => cell.width,
        None => 0,
    }
}

// Whether the wire is there and has the width.
fn has_width(cells: &[Cell], wire: u64, width: u8) -> bool
    ensures { IsTrue result ↔ HasWidth cells.now wire width }
{
    match cells.get(wire as usize) {
        Some(cell) => cell.width == width,
        None => false,
    }
}

// Whether the wire is of an earlier cell than the one with this number, and has the width.
fn is_operand(cells: &[Cell], cell: usize, wire: u64, width: u8) -> bool
    ensures { IsTrue result ↔ IsOperand cells.now cell wire width }
{
    wire < cell as u64 && has_width(cells, wire, width)
}

// Whether both wires are such operands.
fn are_operands(cells: &[Cell], cell: usize, a: u64, b: u64, width: u8) -> bool
    ensures { IsTrue result ↔ AreOperands cells.now cell a b width }
{
    is_operand(cells, cell, a, width) && is_operand(cells, cell, b, width)
}

// Whether both wires are operands of one width.
fn are_alike(cells: &[Cell], cell: usize, a: u64, b: u64) -> bool
    ensures { IsTrue result ↔ AreSameWidthOperands cells.now cell a b }
{
    match cells.get(a as usize) {
        Some(left) => are_operands(cells, cell, a, b, left.width),
        None => false,
    }
}

// Whether the wire is an operand of any width.
fn is_any_operand(cells: &[Cell], cell: usize, wire: u64) -> bool
    ensures { IsTrue result ↔ IsAnyOperand cells.now cell wire }
{
    match cells.get(wire as usize) {
        Some(found) => is_operand(cells, cell, wire, found.width),
        None => false,
    }
}

// Whether the wire is an operand less wide than this.
fn is_narrower(cells: &[Cell], cell: usize, wire: u64, width: u8) -> bool
    ensures { IsTrue result ↔ IsNarrower cells.now cell wire width }
{
    match cells.get(wire as usize) {
        Some(found) => is_operand(cells, cell, wire, found.width) && found.width < width,
        None => false,
    }
}

// Whether the wire is an operand wider than this.
fn is_wider(cells: &[Cell], cell: usize, wire: u64, width: u8) -> bool
    ensures { IsTrue result ↔ IsWider cells.now cell wire width }
{
    match cells.get(wire as usize) {
        Some(found) => is_operand(cells, cell, wire, found.width) && width < found.width,
        None => false,
    }
}

// Whether the number is below 2 to the power of the width.
fn fits(bits: u64, width: u8) -> bool
    requires { width ≤ 64 }
    ensures { IsTrue result ↔ (bits < 2 ^ width) }
{
    width == 64 || bits < 1 << width
}

/// The bits of a value of the kind.
pub fn kind_width(kind: Kind) -> u8
    ensures { result ≡ width_of kind }
{
    match kind {
        Kind::Bool => 1,
        Kind::Unsigned(width) | Kind::Signed(width) => width,
    }
}

// Whether there is such a register, of the width.
fn is_register_of(registers: &[Register], register: u64, width: u8) -> bool
    ensures { IsTrue result ↔ HasRegister registers.now register width }
{
    match registers.get(register as usize) {
        Some(found) => found.width == width,
        None => false,
    }
}

// Whether it is a port of a bank of a memory with values of the width.
fn is_port(table: &[MemEntry], memory: u32, bank: u32, port: u32, width: u8) -> bool
    requires { AllByRecursion IsSmallMemory table.now }
    ensures { IsTrue result ↔ IsPort table.now memory bank port width }
{
    match table.get(memory as usize) {
        Some(entry) => {
            u64::from(bank) < measure(entry.shape.dims.as_slice()).banks
                && u64::from(port) < entry.shape.ports
                && kind_width(entry.shape.kind) == width
        }
        None => false,
    }
}

// Whether the wires are operands of a shift: the number of the cell's width, the amount of any width.
fn are_shifted(cells: &[Cell], cell: usize, a: u64, b: u64, width: u8) -> bool
    ensures { IsTrue result ↔ (IsOperand cells.now cell a width × IsAnyOperand cells.now cell b) }
{
    is_operand(cells, cell, a, width) && is_any_operand(cells, cell, b)
}

// Whether the wires are operands of a comparison in a cell of this width.
fn are_compared(cells: &[Cell], cell: usize, a: u64, b: u64, width: u8) -> bool
    ensures { IsTrue result ↔ ((width ≡ 1) × AreSameWidthOperands cells.now cell a b) }
{
    width == 1 && are_alike(cells, cell, a, b)
}

// Whether the form has the operands that it needs.
fn form_fits(net: &Net, cell: usize, width: u8, form: CellForm) -> bool
    requires table { AllByRecursion IsSmallMemory net.now.table }
    requires width { width ≤ 64 }
    ensures { IsTrue result ↔ FitsIn net.now cell width form }
{
    let cells = net.cells.as_slice();
    match form {
        CellForm::Const { bits } => fits(bits, width),
        CellForm::Reg { register } => is_register_of(net.registers.as_slice(), register, width),
        CellForm::Data { memory, bank, port } => {
            is_port(net.table.as_slice(), memory, bank, port, width)
        }
        CellForm::Add { a, b } => are_operands(cells, cell, a, b, width),
        CellForm::Sub { a, b } => are_operands(cells, cell, a, b, width),
        CellForm::Mul { a, b } => are_operands(cells, cell, a, b, width),
        CellForm::And { a, b } => are_operands(cells, cell, a, b, width),
        CellForm::Or { a, b } => are_operands(cells, cell, a, b, width),
        CellForm::Xor { a, b } => are_operands(cells, cell, a, b, width),
        CellForm::Shl { a, b } => are_shifted(cells, cell, a, b, width),
        CellForm::ShrU { a, b } => are_shifted(cells, cell, a, b, width),
        CellForm::ShrS { a, b } => are_shifted(cells, cell, a, b, width),
        CellForm::LtU { a, b } => are_compared(cells, cell, a, b, width),
        CellForm::LtS { a, b } => are_compared(cells, cell, a, b, width),
        CellForm::Eq { a, b } => are_compared(cells, cell, a, b, width),
        CellForm::Mux { c, a, b } => {
            is_operand(cells, cell, c, 1) && are_operands(cells, cell, a, b, width)
        }
        CellForm::Zero { a } => is_narrower(cells, cell, a, width),
        CellForm::Sign { a } => is_narrower(cells, cell, a, width),
        CellForm::Low { a } => is_wider(cells, cell, a, width),
    }
}

// Whether the cell with this number is one of a valid net.
fn is_cell(net: &Net, number: usize, cell: Cell) -> bool
    requires { AllByRecursion IsSmallMemory net.now.table }
    ensures { IsTrue result ↔ IsCellIn net.now number cell }
{
    1 <= cell.width && cell.width <= 64 && form_fits(net, number, cell.width, cell.form)
}

// Whether all cells are.
fn are_cells(net: &Net) -> bool
    requires { AllByRecursion IsSmallMemory net.now.table }
    ensures { IsTrue result ↔ HasCells net.now }
{
    for (i, cell) in net.cells.as_slice().iter().enumerate() {
        if !is_cell(net, i, *cell) {
            return false;
        }
    }
    true
}

// Whether the register is one of a valid net.
fn is_register(cells: &[Cell], register: Register) -> bool
    ensures { IsTrue result ↔ IsRegister cells.now register }
{
    1 <= register.width
        && register.width <= 64
        && fits(register.initial, register.width)
        && has_width(cells, register.next, register.width)
}

// Whether all registers are.
fn are_registers(net: &Net) -> bool
    ensures { IsTrue result ↔ HasValidRegisters net.now }
{
    let cells = net.cells.as_slice();
    for register in net.registers.as_slice() {
        if !is_register(cells, *register) {
            return false;
        }
    }
    true
}

// Whether the driver is one of the port, in a valid net.
fn is_driver(cells: &[Cell], port: Port, driver: Driver) -> bool
    ensures { IsTrue result ↔ IsDriver cells.now port driver }
{
    has_width(cells, driver.enable, 1)
        && has_width(cells, driver.row, port.row_width)
        && (!driver.write || has_width(cells, driver.data_, port.width))
}

// Whether all drivers of the port are.
fn are_drivers(cells: &[Cell], port: Port, drivers: &[Driver]) -> bool
    ensures { IsTrue result ↔ DrivePort cells.now port drivers.now }
{
    for driver in drivers {
        if !is_driver(cells, port, *driver) {
            return false;
        }
    }
    true
}

// Whether these are the drivers of the ports of the memory with this number.
fn drive_memory(cells: &[Cell], memory: usize, entry: &MemEntry, lists: &[Items<Driver>]) -> bool
    requires memory { IsSmallMemory entry.now }
    requires ports { length lists.now ≡ port_count entry.now }
    ensures { IsTrue result ↔ DrivePorts cells.now (all_ports memory entry.now) lists.now }
{
    for (k, drivers) in lists.iter().enumerate() {
        if !are_drivers(
            cells,
            memory_port(memory, entry, k as u64),
            drivers.as_slice(),
        ) {
            return false;
        }
    }
    true
}

// Whether there is a list of drivers for each port of the table.
fn have_drivers(cells: &[Cell], table: &[MemEntry], drivers: &[Items<Driver>]) -> bool
    requires { AllByRecursion IsSmallMemory table.now }
    ensures { IsTrue result ↔ DrivePorts cells.now (ports_of table.now) drivers.now }
{
    let mut rest = drivers;
    for (memory, entry) in table.iter().enumerate() {
        match rest.split_at_checked(count_ports(entry) as usize) {
            Some((own, others)) => {
                if !drive_memory(cells, memory, entry, own) {
                    return false;
                }
                rest = others;
            }
            None => return false,
        }
    }
    rest.is_empty()
}

// Whether each port has its drivers.
fn have_ports(net: &Net) -> bool
    requires { AllByRecursion IsSmallMemory net.now.table }
    ensures { IsTrue result ↔ HasPorts net.now }
{
    have_drivers(
        net.cells.as_slice(),
        net.table.as_slice(),
        net.drivers.as_slice(),
    )
}

// Whether the outputs are wires of their widths.
fn has_outputs(net: &Net) -> bool
    ensures { IsTrue result ↔ HasOutputs net.now }
{
    let cells = net.cells.as_slice();
    has_width(cells, net.tick, 1)
        && has_width(cells, net.done, 1)
        && has_width(cells, net.fault, 32)
}

/// Whether the net is valid. Takes no memory. The time is linear in the net, but for the names of its
/// memories, which it compares each with each.
#[tactic(auto, using(crate::proofs::PortWalks::small_memories, crate::proofs::PortWalks::valid_ports))]
pub fn valid(net: &Net) -> bool
    ensures { IsTrue result ↔ IsValid net.now }
{
    // The other tests count banks and rows of memories that a net can have, and of no others.
    if !is_program_table(&net.table) {
        return false;
    }
    are_registers(net) && are_cells(net) && have_ports(net) && has_outputs(net)
}
