//! A circuit: the cells of a net that is being built. Each cell that is added drives a new wire.

ghost use Rattle.std.specs.Prelude.{◌≡◌, [], ◌^◌, ◌<◌, ◌≤◌, ◌↔◌, false, slice_get, Some, IfOk, IfSome, IsTrue, OnOk};
ghost use Rattle.dh_net.specs.Valid.{IsPort};
ghost use Rattle.dh_value.specs.Words.{IsWidth};
ghost use Rattle.dh_cells.specs.NarrowShifts.{HasNarrowShifts, IsBelow, constant_at, form_bits};
ghost use Rattle.dh_cells.specs.PlainCircuits.{AddsAtMost, IsWireOfForm, IsNext, SuitRegisters, circuit_of};
ghost use Rattle.dh_cells.specs.Settled.{Adds, IsSettled, IsWire, Signals, ValuationSettles, WireAdded, shown};
ghost use Rattle.dh_cells.specs.SoughtCells.{IfMade};
ghost use Rattle.dh_cells.specs.ShownValues.{form_shown, held_datum_shown, number_shown, register_shown, signs_shown};

use crate::chaining::{Chains, Sought, greatest_taken, other_taken};
use dh_base::{Items, NoMemory};
use dh_net::{Cell, CellForm};
use dh_tree::MemTable;
use indexmap::IndexMap;
use std::alloc::Global;
use std::marker::Model;

/// The memories of a net, the widths of its registers, and its cells so far. Each cell has its operands before it, and a
/// cell that was made is not made again.
#[derive(Drop)]
pub struct Circuit {
    table: MemTable,
    widths: Items<u8>,
    cells: Items<Cell>,
    // The first few cells over each wire that they take: the greatest one, or else another.
    chains: Chains,
    // The wires of all other cells.
    made: IndexMap<Cell, u64>,
}

impl Model for Circuit {
    ghost use Rattle.dh_cells.specs.PlainCircuits.{PlainCircuit, circuit_of, IsCircuit};

    ghost Value = { PlainCircuit };

    ghost view = { λ c. circuit_of c.table c.widths c.cells };

    ghost invariant = { λ c. IsCircuit (circuit_of c.table c.widths c.cells) };
}

// The bits of an amount by which the widest word is shifted.
const AMOUNT_WIDTH: u8 = 6;

// The most cells of a chain.
const LONGEST_CHAIN: usize = 8;

// The bits of a constant.
fn bits_of(form: CellForm) -> Option<u64>
    ensures { result ≡ form_bits form }
{
    match form {
        CellForm::Const { bits } => Some(bits),
        CellForm::Reg { .. }
        | CellForm::Data { .. }
        | CellForm::Add { .. }
        | CellForm::Sub { .. }
        | CellForm::Mul { .. }
        | CellForm::And { .. }
        | CellForm::Or { .. }
        | CellForm::Xor { .. }
        | CellForm::Shl { .. }
        | CellForm::ShrU { .. }
        | CellForm::ShrS { .. }
        | CellForm::LtU { .. }
        | CellForm::LtS { .. }
        | CellForm::Eq { .. }
        | CellForm::Mux { .. }
        | CellForm::Zero { .. }
        | CellForm::Sign { .. }
        | CellForm::Low { .. } => None,
    }
}

// Whether both are one cell.
fn is_same(found: Cell, cell: Cell) -> bool
    ensures { IsTrue result ↔ (found ≡ cell) }
{
    found == cell
}

impl Circuit {
    /// The circuit over these memories and registers of these widths, without a cell, with room for so many.
    ///
    /// # Errors
    ///
    /// `NoMemory` where an allocation was refused.
    pub fn with_room(
        alloc: Global,
        table: MemTable,
        widths: Items<u8>,
        count: usize,
    ) -> Result<Circuit, NoMemory>
        ensures { IfOk result (λ circuit. circuit ≡ circuit_of table widths []) }
    {
        let cells = Items::with_room(alloc, count)?;
        let chains = Chains::with_room(alloc, count)?;
        Ok(Circuit {
            table,
            widths,
            cells,
            chains,
            made: IndexMap::new(alloc),
        })
    }

    /// The wire of a cell: the one that was made, or a new one.
    pub fn push(&mut self, width: u8, form: CellForm) -> Result<u64, NoMemory>
        requires { IsNext self.old width form }
        ensures shows { WireAdded result self.old self.new width (form_shown self.old width form) }
        ensures made { IfOk result (λ wire. IsWireOfForm self.new wire width form) }
        ensures adds { OnOk result (AddsAtMost self.old self.new width form) }
    {
        let cell = Cell { width, form };
        match greatest_taken(form) {
            Some(taken) => self.push_over(taken, cell),
            None => self.push_alone(cell),
        }
    }

    // The wire of a cell that takes this wire, and none that is greater.
    fn push_over(&mut self, taken: u64, cell: Cell) -> Result<u64, NoMemory>
        requires { IsNext self.old cell.width cell.form }
        ensures shows { WireAdded result self.old self.new cell.width
            (form_shown self.old cell.width cell.form) }
        ensures made { IfOk result (λ wire. IsWireOfForm self.new wire cell.width cell.form) }
        ensures adds { OnOk result (AddsAtMost self.old self.new cell.width cell.form) }
    {
        match self.seek(taken, cell) {
            Sought::Made(wire) => Ok(wire),
            Sought::New => self.add_over(taken, cell),
            Sought::Untold => self.push_other(cell),
        }
    }

    // The wire of a cell of which many more take the greatest wire that it takes.
    fn push_other(&mut self, cell: Cell) -> Result<u64, NoMemory>
        requires { IsNext self.old cell.width cell.form }
        ensures shows { WireAdded result self.old self.new cell.width
            (form_shown self.old cell.width cell.form) }
        ensures made { IfOk result (λ wire. IsWireOfForm self.new wire cell.width cell.form) }
        ensures adds { OnOk result (AddsAtMost self.old self.new cell.width cell.form) }
    {
        let Some(taken) = other_taken(cell.form) else {
            return self.push_alone(cell);
        };
        match self.seek(taken, cell) {
            Sought::Made(wire) => Ok(wire),
            Sought::New => self.add_over(taken, cell),
            Sought::Untold => self.push_alone(cell),
        }
    }

    // The wire of a cell that is in no chain.
    fn push_alone(&mut self, cell: Cell) -> Result<u64, NoMemory>
        requires { IsNext self.old cell.width cell.form }
        ensures shows { WireAdded result self.old self.new cell.width
            (form_shown self.old cell.width cell.form) }
        ensures made { IfOk result (λ wire. IsWireOfForm self.new wire cell.width cell.form) }
        ensures adds { OnOk result (AddsAtMost self.old self.new cell.width cell.form) }
    {
        match self.find(cell) {
            Some(wire) => Ok(wire),
            None => self.add(cell),
        }
    }

    // Whether the wire is that of this cell.
    fn is_at(&self, wire: u64, cell: Cell) -> bool
        ensures shows { IsTrue result → Adds self.now self.now wire cell.width
            (form_shown self.now cell.width cell.form) }
        ensures made { IsTrue result → IsWireOfForm self.now wire cell.width cell.form }
    {
        let Some(found) = self.cells.as_slice().get(wire as usize) else {
            return false;
        };
        is_same(*found, cell)
    }

    // The wire of a cell in the chain over a wire that it takes.
    fn seek(&self, taken: u64, cell: Cell) -> Sought
        ensures shows { IfMade result (λ wire. Adds self.now self.now wire cell.width
            (form_shown self.now cell.width cell.form)) }
        ensures made { IfMade result (λ wire. IsWireOfForm self.now wire cell.width cell.form) }
    {
        let mut next = self.chains.latest(taken);
        for _ in 0..LONGEST_CHAIN {
            let Some(wire) = next else {
                return Sought::New;
            };
            if self.is_at(wire, cell) {
                return Sought::Made(wire);
            }
            next = self.chains.before(wire);
        }
        Sought::Untold
    }

    // The wire of a cell in the table. The cell is looked at, so that nothing has to be known of the table.
    fn find(&self, cell: Cell) -> Option<u64>
        ensures shows { IfSome result (λ wire. Adds self.now self.now wire cell.width
            (form_shown self.now cell.width cell.form)) }
        ensures made { IfSome result (λ wire. IsWireOfForm self.now wire cell.width cell.form) }
    {
        let wire = *self.made.get(&cell)?;
        if self.is_at(wire, cell) {
            Some(wire)
        } else {
            None
        }
    }

    // Adds a cell to the chain over a wire, and answers the wire that it drives.
    fn add_over(&mut self, taken: u64, cell: Cell) -> Result<u64, NoMemory>
        requires { IsNext self.old cell.width cell.form }
        ensures shows { WireAdded result self.old self.new cell.width
            (form_shown self.old cell.width cell.form) }
        ensures made { IfOk result (λ wire. IsWireOfForm self.new wire cell.width cell.form) }
        ensures adds { OnOk result (AddsAtMost self.old self.new cell.width cell.form) }
    {
        let wire = self.cells.len() as u64;
        self.chains.add_over(taken)?;
        self.cells.push(cell)?;
        Ok(wire)
    }

    // Adds a cell to the table, and answers the wire that it drives.
    fn add(&mut self, cell: Cell) -> Result<u64, NoMemory>
        requires { IsNext self.old cell.width cell.form }
        ensures shows { WireAdded result self.old self.new cell.width
            (form_shown self.old cell.width cell.form) }
        ensures made { IfOk result (λ wire. IsWireOfForm self.new wire cell.width cell.form) }
        ensures adds { OnOk result (AddsAtMost self.old self.new cell.width cell.form) }
    {
        let wire = self.cells.len() as u64;
        self.chains.add()?;
        self.cells.push(cell)?;
        self.made.insert(cell, wire)?;
        Ok(wire)
    }

    // The bits of a wire whose cell is a constant.
    fn constant_of(&self, wire: u64) -> Option<u64>
        ensures { result ≡ constant_at self.now.cells wire }
    {
        match self.cells.as_slice().get(wire as usize) {
            Some(cell) => bits_of(cell.form),
            None => None,
        }
    }

    /// Whether a wire is a constant of at least this number.
    pub fn is_constant_from(&self, wire: u64, least: u8) -> bool
        ensures shows { IsTrue result → (x : Signals) → IsSettled self.now x
            → least ≤ shown x wire }
        ensures below { result ≡ false → IsBelow self.now.cells wire least }
    {
        match self.constant_of(wire) {
            Some(bits) => bits >= least as u64,
            None => false,
        }
    }

    /// Adds a wire of copies of the sign of another, of this width.
    pub fn push_signs(&mut self, width: u8, a: u64) -> Result<u64, NoMemory>
        requires { IsWire self.old a width }
        ensures { WireAdded result self.old self.new width (signs_shown width a) }
    {
        let amount = CellForm::Const {
            bits: width as u64 - 1,
        };
        let b = self.push(AMOUNT_WIDTH, amount)?;
        self.push(width, CellForm::ShrS { a, b })
    }

    /// A wire of these bits.
    pub fn push_constant(&mut self, width: u8, bits: u64) -> Result<u64, NoMemory>
        requires width { IsWidth width }
        requires fits { bits < 2 ^ width }
        ensures { WireAdded result self.old self.new width (number_shown bits) }
    {
        self.push(width, CellForm::Const { bits })
    }

    /// Adds a wire that shows a register of this width.
    pub fn push_register(&mut self, width: u8, register: u64) -> Result<u64, NoMemory>
        requires width { IsWidth width }
        requires there { slice_get self.old.widths register ≡ Some width }
        ensures { WireAdded result self.old self.new width (register_shown register) }
    {
        self.push(width, CellForm::Reg { register })
    }

    /// Adds a wire that shows what a port of a bank holds, of a memory whose elements have this width.
    pub fn push_held(
        &mut self,
        width: u8,
        memory: u32,
        bank: u32,
        port: u32,
    ) -> Result<u64, NoMemory>
        requires width { IsWidth width }
        requires there { IsPort self.old.table memory bank port width }
        ensures { WireAdded result self.old self.new width
            (held_datum_shown self.old.table memory bank port) }
    {
        self.push(width, CellForm::Data { memory, bank, port })
    }

    /// The memories and the cells.
    pub fn into_parts(self) -> (MemTable, Items<Cell>)
        ensures table { result.0 ≡ self.table }
        ensures cells { result.1 ≡ self.cells }
        ensures suit { SuitRegisters self }
        ensures settles { ValuationSettles self }
        ensures shifts { HasNarrowShifts self.cells }
    {
        (self.table, self.cells)
    }
}
