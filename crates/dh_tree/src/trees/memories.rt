//! The memories of a program: their table, and their numbers by entity.

ghost use Rattle.std.specs.Prelude.{◌≡◌, None, length, map, replicate, IfOk};
ghost use Rattle.dh_tree.specs.Seen.{action_seen, all_parts_seen, maybe_block_seen, program_seen};
ghost use Rattle.dh_tree.specs.Resolved.{HasEntities};
ghost use Rattle.dh_tree.specs.Memories.{locals, other_locals, groups_locals, memories_of, entry_of};
ghost use Rattle.dh_tree.specs.Collected.{memory_found, found_memories, outside_memories, FindsMemories, NumbersNext, AreNumbersOf, IsCollected};

use crate::tables::{MemEntry, MemTable, Shape};
use crate::trees::sorts::declare_few_memories;
use crate::trees::{Command, CommandForm, Decl, Ref, ShapePlaces, Tree};
use dh_base::{Items, NoMemory};
use std::alloc::Global;

/// A memory, where it is declared.
#[derive(Clone, Copy)]
struct Found<'a> {
    name: &'a Ref,
    shape: &'a Shape,
    shape_places: &'a ShapePlaces,
    outside: bool,
}

/// The memories of a tree.
#[derive(Drop)]
pub struct Collected {
    /// Their table, in order.
    pub table: MemTable,
    /// By the number of an entity the number of its memory in the table.
    pub numbers: Vec<Option<usize>>,
}

/// Finds the local memories that a command declares, in the order of the tree.
#[cycle(finding)]
#[tactic(auto, using(crate::proofs::SeenActions::actions_are, crate::proofs::Collecting::found_none, crate::proofs::Collecting::found_both))]
fn find_locals<'a>(found: &mut Vec<Found<'a>>, command: &'a Command) -> Result<(), NoMemory>
    ensures { FindsMemories result found.old found.new (locals (action_seen command.now)) }
{
    match &command.form {
        CommandForm::LetMemory {
            name,
            shape,
            shape_places,
            ..
        } => Ok(found.push(Found {
            name,
            shape,
            shape_places,
            outside: false,
        })?),
        CommandForm::Block { body } => find_in_parts(found, body.as_slice()),
        CommandForm::If { then, other, .. } => {
            find_locals(found, then)?;
            find_in_other(found, other)
        }
        CommandForm::While { body, .. } => find_locals(found, body),
        CommandForm::For { body, combine, .. } => {
            find_locals(found, body)?;
            find_in_other(found, combine)
        }
        CommandForm::Let { .. }
        | CommandForm::View { .. }
        | CommandForm::Assign { .. }
        | CommandForm::Store { .. }
        | CommandForm::Reduce { .. }
        | CommandForm::Call { .. } => Ok(()),
    }
}

/// Finds those of a block that may lack.
#[cycle(finding)]
fn find_in_other<'a>(
    found: &mut Vec<Found<'a>>,
    other: &'a Option<Box<Command>>,
) -> Result<(), NoMemory>
    ensures { FindsMemories result found.old found.new (other_locals (maybe_block_seen other.now)) }
{
    match other {
        Some(block) => find_locals(found, block),
        None => Ok(()),
    }
}

/// Finds those of parts.
#[cycle(finding)]
fn find_in_parts<'a>(found: &mut Vec<Found<'a>>, parts: &'a [Vec<Command>]) -> Result<(), NoMemory>
    ensures { FindsMemories result found.old found.new (groups_locals (all_parts_seen parts.now)) }
{
    for part in parts {
        for command in part {
            find_locals(found, command)?;
        }
    }
    Ok(())
}

/// Finds the memories that these declarations bring from outside, in their order.
fn find_decls<'a>(alloc: Global, decls: &'a [Decl]) -> Result<Vec<Found<'a>>, NoMemory>
    ensures { IfOk result (λ found. found_memories found.items ≡ outside_memories decls.now) }
{
    let mut found = Vec::new(alloc);
    for decl in decls {
        found.push(Found {
            name: &decl.name,
            shape: &decl.shape,
            shape_places: &decl.shape_places,
            outside: true,
        })?;
    }
    Ok(found)
}

/// The entry of a memory.
fn entry(alloc: Global, found: &Found<'_>) -> Result<MemEntry, NoMemory>
    ensures { IfOk result (λ e. e ≡ entry_of (memory_found found.now)) }
{
    Ok(MemEntry {
        name: found.name.name.try_clone(alloc)?,
        shape: found.shape.try_clone(alloc)?,
        outside: found.outside,
    })
}

/// The table of memories.
fn entries(alloc: Global, found: &[Found<'_>]) -> Result<MemTable, NoMemory>
    ensures { IfOk result (λ t. t ≡ map entry_of (found_memories found.now)) }
{
    let mut table = Items::new(alloc);
    for memory in found {
        table.push(entry(alloc, memory)?)?;
    }
    Ok(table)
}

/// Notes that an entity is the memory of this number, where it is none yet: a name that is declared twice
/// would stand for its first memory.
fn note_number(numbers: &mut [Option<usize>], entity: Option<u32>, number: usize)
    ensures long { length numbers.new ≡ length numbers.old }
    ensures numbered { NumbersNext entity number numbers.old numbers.new }
{
    if let Some(entity) = entity {
        let entity = entity as usize;
        if entity < numbers.len() && numbers[entity].is_none() {
            numbers[entity] = Some(number);
        }
    }
}

/// For so many entities, of which none is a memory.
fn no_numbers(alloc: Global, count: usize) -> Result<Vec<Option<usize>>, NoMemory>
    ensures { IfOk result (λ numbers. numbers.items ≡ replicate count None) }
{
    let mut numbers = Vec::new(alloc);
    for _ in 0..count {
        numbers.push(None)?;
    }
    Ok(numbers)
}

/// The number of its memory, for each of so many entities.
fn numbers(
    alloc: Global,
    found: &[Found<'_>],
    entities: usize,
) -> Result<Vec<Option<usize>>, NoMemory>
    ensures { IfOk result (λ numbers. AreNumbersOf (found_memories found.now) entities numbers.items) }
{
    let mut numbers = no_numbers(alloc, entities)?;
    for (number, memory) in found.iter().enumerate() {
        note_number(numbers.as_mut_slice(), memory.name.entity, number);
    }
    Ok(numbers)
}

/// Finds the memories of a tree. None is local where no more are declared than come from outside: then
/// nothing is walked over.
fn memories_in<'a>(alloc: Global, tree: &'a Tree) -> Result<Vec<Found<'a>>, NoMemory>
    requires { HasEntities (program_seen tree.now) }
    ensures { IfOk result (λ found.
        found_memories found.items ≡ memories_of (program_seen tree.now)) }
{
    let decls = tree.decls.as_slice();
    let entities = tree.entities.as_slice();
    let mut found = find_decls(alloc, decls)?;
    if declare_few_memories(entities, decls.len()) {
        return Ok(found);
    }
    find_locals(&mut found, &tree.body)?;
    Ok(found)
}

/// The memories of a tree.
pub fn collect(alloc: Global, tree: &Tree) -> Result<Collected, NoMemory>
    requires { HasEntities (program_seen tree.now) }
    ensures { IfOk result (λ c. IsCollected tree.now c) }
{
    let found = memories_in(alloc, tree)?;
    Ok(Collected {
        table: entries(alloc, found.as_slice())?,
        numbers: numbers(alloc, found.as_slice(), tree.entities.len())?,
    })
}
