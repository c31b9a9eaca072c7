//! Cells by a wire that they take. The greatest one was mostly made just before them, so that cells that are made one
//! after the other, and those that they are compared with, stand side by side in memory.

use dh_base::NoMemory;
use dh_net::CellForm;
use std::alloc::Global;

// No wire.
const NONE: u32 = u32::MAX;

/// What is told of a cell that is sought.
#[derive(Clone, Copy)]
pub enum Sought {
    /// It drives this wire.
    Made(u64),
    /// It was not made.
    New,
    /// The chain is too long to tell.
    Untold,
}

/// What is kept of a wire. A wire that has no number of 32 bits is in no chain.
#[derive(Clone, Copy)]
struct ChainLink {
    // The latest cell of the chain over it.
    latest: u32,
    // The cell before its own one, in the chain of that.
    before: u32,
}

/// For each wire a chain of cells that take it, from the latest to the first. No contract tells which cells are in it,
/// so what is found is to be looked at.
#[derive(Drop)]
pub struct Chains {
    links: Vec<ChainLink>,
}

/// The greatest wire that a form takes.
pub fn greatest_taken(form: CellForm) -> Option<u64> {
    match form {
        CellForm::Const { .. } | CellForm::Reg { .. } | CellForm::Data { .. } => None,
        CellForm::Add { a, b }
        | CellForm::Sub { a, b }
        | CellForm::Mul { a, b }
        | CellForm::And { a, b }
        | CellForm::Or { a, b }
        | CellForm::Xor { a, b }
        | CellForm::Shl { a, b }
        | CellForm::ShrU { a, b }
        | CellForm::ShrS { a, b }
        | CellForm::LtU { a, b }
        | CellForm::LtS { a, b }
        | CellForm::Eq { a, b } => Some(a.max(b)),
        CellForm::Mux { c, a, b } => Some(c.max(a).max(b)),
        CellForm::Zero { a } | CellForm::Sign { a } | CellForm::Low { a } => Some(a),
    }
}

/// Another wire that a form takes. Few cells take both, where many take the greatest one.
pub fn other_taken(form: CellForm) -> Option<u64> {
    match form {
        CellForm::Const { .. }
        | CellForm::Reg { .. }
        | CellForm::Data { .. }
        | CellForm::Zero { .. }
        | CellForm::Sign { .. }
        | CellForm::Low { .. } => None,
        CellForm::Add { a, b }
        | CellForm::Sub { a, b }
        | CellForm::Mul { a, b }
        | CellForm::And { a, b }
        | CellForm::Or { a, b }
        | CellForm::Xor { a, b }
        | CellForm::Shl { a, b }
        | CellForm::ShrU { a, b }
        | CellForm::ShrS { a, b }
        | CellForm::LtU { a, b }
        | CellForm::LtS { a, b }
        | CellForm::Eq { a, b } => Some(a.min(b)),
        CellForm::Mux { c, a, b } => Some(c.min(a.max(b))),
    }
}

// The wire, where it is one.
fn wire_of(number: u32) -> Option<u64> {
    if number == NONE {
        None
    } else {
        Some(number as u64)
    }
}

// The wire in 32 bits, where it has such a number.
fn short(wire: usize) -> u32 {
    if wire < NONE as usize {
        wire as u32
    } else {
        NONE
    }
}

// Makes the cell the latest one over a wire, and answers the one before it.
fn lead(links: &mut [ChainLink], taken: u64, cell: u32) -> u32 {
    let at = taken as usize;
    if at < links.len() {
        let ChainLink { latest, before } = links[at];
        links[at] = ChainLink {
            latest: cell,
            before,
        };
        latest
    } else {
        NONE
    }
}

impl Chains {
    /// No chain, of no wire, with room for so many wires.
    pub fn with_room(alloc: Global, count: usize) -> Result<Chains, NoMemory> {
        let links = Vec::with_capacity(alloc, count)?;
        Ok(Chains { links })
    }

    /// The latest cell of the chain over a wire.
    pub fn latest(&self, wire: u64) -> Option<u64> {
        let link = self.links.get(wire as usize)?;
        wire_of(link.latest)
    }

    /// The cell before this one in its chain.
    pub fn before(&self, cell: u64) -> Option<u64> {
        let link = self.links.get(cell as usize)?;
        wire_of(link.before)
    }

    /// Adds the next wire, whose cell is in no chain.
    pub fn add(&mut self) -> Result<(), NoMemory> {
        self.links.push(ChainLink {
            latest: NONE,
            before: NONE,
        })?;
        Ok(())
    }

    /// Adds the next wire, whose cell is the latest one over another.
    pub fn add_over(&mut self, taken: u64) -> Result<(), NoMemory> {
        let cell = short(self.links.len());
        let before = lead(self.links.as_mut_slice(), taken, cell);
        self.links.push(ChainLink {
            latest: NONE,
            before,
        })?;
        Ok(())
    }
}
