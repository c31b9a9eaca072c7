//! The banks of memories, in one list of all banks, and which bank an access reaches.

ghost use Rattle.std.specs.Prelude.{◌≡◌, ◌≤◌, ◌<◌, ◌%◌, ◌+◌, ◌^◌, [], Bool, None, Some, pos, ◌+ℤ◌, unsigned_abs, IfOk};
ghost use Rattle.std.specs.List.{AllByRecursion};
ghost use Rattle.dh_tree.specs.Elements.{banks_of};
ghost use Rattle.dh_tree.specs.Memories.{memories_of, number_in};
ghost use Rattle.dh_tree.specs.Seen.{form_seen, program_seen};
ghost use Rattle.dh_tree.specs.Shapes.{most_banks, IsDim, IsProgramTable};
ghost use Rattle.dh_meets.specs.Charges.{level_of_loop};
ghost use Rattle.dh_ports.specs.Banks.{bank_at_path, bank_outside, IsLevel, IsIndexStart};
ghost use Rattle.dh_events.specs.Accesses.{entity_in};
ghost use Rattle.dh_ports.specs.Claims.{bank_ports_in, source_of, AreBases};

use dh_base::NoMemory;
use dh_shape::{IndexKind, classify};
use dh_tree::{Counter, Dim, Expr, ExprForm, MemEntry, Typed};
use std::alloc::Global;

/// The banks of dimensions together.
pub fn bank_count(dims: &[Dim]) -> u64
    requires dims { AllByRecursion IsDim dims.now }
    requires few { banks_of dims.now ≤ most_banks }
    ensures { result ≡ banks_of dims.now }
{
    let mut count: u64 = 1;
    for i in (0..dims.len()).rev() {
        count = dims[i].banks * count;
    }
    count
}

/// For each memory the number of its first bank among all banks, and last the number of all banks.
pub fn bank_bases(alloc: Global, table: &[MemEntry]) -> Result<Vec<usize>, NoMemory>
    requires table { IsProgramTable table.now }
    ensures { IfOk result (λ bases. AreBases table.now bases.items) }
{
    let mut bases = Vec::new(alloc);
    let mut base: usize = 0;
    for entry in table {
        bases.push(base)?;
        base = base + bank_count(entry.shape.dims.as_slice()) as usize;
    }
    bases.push(base)?;
    Ok(bases)
}

/// The ports of each bank of all memories.
pub fn bank_ports(alloc: Global, table: &[MemEntry]) -> Result<Vec<usize>, NoMemory>
    requires table { IsProgramTable table.now }
    ensures { IfOk result (λ ports. ports.items ≡ bank_ports_in table.now) }
{
    let mut ports = Vec::new(alloc);
    for entry in table {
        for _ in 0..bank_count(entry.shape.dims.as_slice()) {
            ports.push(entry.shape.ports as usize)?;
        }
    }
    Ok(ports)
}

/// An index in a turn that is the first, as far as its bank goes: in the first copy `low + offset`.
#[derive(Clone, Copy)]
pub struct Start {
    /// Where its iterator begins; 0 without one.
    pub low: u64,
    /// What is added to it.
    pub offset: i128,
    /// The iterator that it is, with a constant.
    pub iterator: Option<u32>,
}

/// A literal, or what names no bank.
fn fixed(offset: i128) -> Start
    ensures { result ≡ record { low = 0; offset = offset; iterator = None } }
{
    Start {
        low: 0,
        offset,
        iterator: None,
    }
}

/// An iterator that begins at a number, with a constant.
fn counting(low: u64, offset: i128, iterator: u32) -> Start
    ensures { result ≡ record { low = low; offset = offset; iterator = Some iterator } }
{
    Start {
        low,
        offset,
        iterator: Some(iterator),
    }
}

/// What an index is in the first turn.
pub fn start_of(typed: &Typed, index: &Expr) -> Start
    ensures { IsIndexStart typed.now index.now result }
{
    match classify(typed, index) {
        IndexKind::Constant(value) => fixed(value),
        IndexKind::Iterator { entity, offset } => match typed.counter(entity) {
            Some(counter) => counting(counter.low, offset, entity),
            None => fixed(0),
        },
        IndexKind::Dynamic => fixed(0),
    }
}

/// The size of a number with an offset added.
fn size_of(number: u128, offset: i128) -> u128
    requires few { number < 2 ^ 66 }
    ensures { result ≡ unsigned_abs (pos number +ℤ offset) }
{
    let size = offset.unsigned_abs();
    if offset >= 0 {
        number + size
    } else if size <= number {
        number - size
    } else {
        size - number
    }
}

/// A number with a copy and an offset added, its size modulo a number of banks.
pub fn residue_of_copy(low: u64, offset: i128, copy: u64, banks: u64) -> u64
    requires banks { 1 ≤ banks }
    ensures { result ≡ unsigned_abs (pos (low + copy) +ℤ offset) % banks }
{
    let size = size_of(u128::from(low) + u128::from(copy), offset);
    (size % u128::from(banks)) as u64
}

/// The bank that indices tell outside every unrolled loop, row-major over the dimensions. Where a dimension
/// has one bank, its index tells nothing.
fn bank_told(typed: &Typed, dims: &[Dim], indices: &[Expr]) -> u64
    requires dims { AllByRecursion IsDim dims.now }
    requires few { banks_of dims.now ≤ most_banks }
    ensures { result ≡ bank_outside typed.now dims.now indices.now }
{
    let mut bank: u64 = 0;
    let mut count: u64 = 1;
    for i in (0..dims.len()).rev() {
        let banks = dims[i].banks;
        if i < indices.len() && banks > 1 {
            let start = start_of(typed, &indices[i]);
            bank = residue_of_copy(start.low, start.offset, 0, banks) * count + bank;
        }
        count = banks * count;
    }
    bank
}

/// The bank that an access reaches outside every unrolled loop.
#[tactic(auto, using(dh_tree::proofs::SeenTerms::terms_are, crate::proofs::BankTurns::no_bank))]
pub fn bank_reached(typed: &Typed, dims: &[Dim], access: &Expr) -> u64
    requires dims { AllByRecursion IsDim dims.now }
    requires few { banks_of dims.now ≤ most_banks }
    ensures { (writes : Bool)
        → result ≡ bank_at_path typed.now dims.now (source_of [] writes access.now) [] }
{
    match &access.form {
        ExprForm::Access { indices, .. } => bank_told(typed, dims, indices.as_slice()),
        ExprForm::Physical { bank, .. } => *bank,
        ExprForm::Number { .. }
        | ExprForm::Truth { .. }
        | ExprForm::Variable { .. }
        | ExprForm::Binary { .. }
        | ExprForm::Cast { .. } => 0,
    }
}

/// What an access names.
#[tactic(auto, using(dh_tree::proofs::SeenTerms::terms_are))]
pub fn entity_of(access: &Expr) -> Option<u32>
    ensures { result ≡ entity_in (form_seen access.now.form) }
{
    match &access.form {
        ExprForm::Access { of, .. } | ExprForm::Physical { of, .. } => of.entity,
        ExprForm::Number { .. }
        | ExprForm::Truth { .. }
        | ExprForm::Variable { .. }
        | ExprForm::Binary { .. }
        | ExprForm::Cast { .. } => None,
    }
}

/// The number of the memory that an entity is, if it is one.
pub fn number_of(typed: &Typed, entity: Option<u32>) -> Option<usize>
    ensures { result ≡ number_in (memories_of (program_seen typed.now)) entity }
{
    match entity {
        Some(entity) => typed.memory_number(entity),
        None => None,
    }
}

/// Which of these loops has an iterator, the first where there are more; their number where none has.
pub fn level_of(loops: &[Counter], iterator: Option<u32>) -> usize
    ensures { IsLevel loops.now iterator result }
{
    match iterator {
        Some(iterator) => {
            for level in 0..loops.len() {
                if loops[level].entity == Some(iterator) {
                    return level;
                }
            }
            loops.len()
        }
        None => loops.len(),
    }
}
