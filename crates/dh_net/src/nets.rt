//! The data of a netlist: registers, cells, and the drivers of the ports of its memories.
//! A cell, and the wire that it drives, goes by its number in the list of cells, from 0.

use dh_base::{FaultKind, Items, Place};
use dh_tree::MemTable;

/// A register. With each clock it takes the value of its next wire.
#[derive(Clone, Copy, PartialEq, Eq)]
pub struct Register {
    /// Bits, from 1 to 64.
    pub width: u8,
    /// The value before the first clock.
    pub initial: u64,
    /// The wire that it takes, of its width.
    pub next: u64,
}

/// What a cell computes. `a`, `b` and `c` are wires of earlier cells, of the cell's width where nothing
/// else is said.
#[derive(Clone, Copy, PartialEq, Eq, Hash)]
pub enum CellForm {
    /// These bits.
    Const { bits: u64 },
    /// The present value of a register.
    Reg { register: u64 },
    /// The held data of a port.
    Data { memory: u32, bank: u32, port: u32 },
    /// The sum, modulo 2^width.
    Add { a: u64, b: u64 },
    /// The difference, modulo 2^width.
    Sub { a: u64, b: u64 },
    /// The product, modulo 2^width.
    Mul { a: u64, b: u64 },
    /// The bitwise and.
    And { a: u64, b: u64 },
    /// The bitwise or.
    Or { a: u64, b: u64 },
    /// The bitwise exclusive or.
    Xor { a: u64, b: u64 },
    /// `a` times 2^b, modulo 2^width. `b` is of any width.
    Shl { a: u64, b: u64 },
    /// `a` divided by 2^b, rounded down. `b` is of any width.
    ShrU { a: u64, b: u64 },
    /// `a` in two's complement divided by 2^b, rounded down. `b` is of any width, and unsigned.
    ShrS { a: u64, b: u64 },
    /// 1 where `a` is below `b`, else 0. Both have one width, and the cell has width 1.
    LtU { a: u64, b: u64 },
    /// 1 where `a` is below `b` in two's complement, else 0. Both have one width, and the cell has width 1.
    LtS { a: u64, b: u64 },
    /// 1 where both are equal, else 0. Both have one width, and the cell has width 1.
    Eq { a: u64, b: u64 },
    /// `a` where `c` is 1, else `b`. `c` has width 1.
    Mux { c: u64, a: u64, b: u64 },
    /// `a`, which is less wide, with zeros above it.
    Zero { a: u64 },
    /// `a`, which is less wide, with copies of its highest bit above it.
    Sign { a: u64 },
    /// The low bits of `a`, which is wider.
    Low { a: u64 },
}

/// A cell. It drives the wire of its own number.
#[derive(Clone, Copy, PartialEq, Eq, Hash)]
pub struct Cell {
    /// Bits of its wire, from 1 to 64.
    pub width: u8,
    /// What it computes.
    pub form: CellForm,
}

/// A driver of a port. In a clock in which its enable wire is 1 it has the port read or write a row.
#[derive(Clone, Copy, PartialEq, Eq)]
pub struct Driver {
    /// The wire that enables it, of width 1.
    pub enable: u64,
    /// Whether it writes; else it reads.
    pub write: bool,
    /// The wire with the number of the row, of the memory's row width.
    pub row: u64,
    /// The wire with the data of a write, of the memory's width; without meaning for a read.
    pub data_: u64,
}

/// A netlist.
#[derive(Drop)]
pub struct Net {
    /// The memories.
    pub table: MemTable,
    /// What the fault output names, from 1.
    pub faults: Items<(FaultKind, Place)>,
    /// The registers.
    pub registers: Items<Register>,
    /// The cells. The operands of each are earlier ones.
    pub cells: Items<Cell>,
    /// The drivers of each port, in order of memory, bank and port. The first active one is served.
    pub drivers: Items<Items<Driver>>,
    /// The wire that is 1 after a clock that ended a logical step without fault.
    pub tick: u64,
    /// The wire that is 1 once the program has ended.
    pub done: u64,
    /// The wire, of 32 bits, that names the fault in which the program ended, from 1, else 0.
    pub fault: u64,
}
