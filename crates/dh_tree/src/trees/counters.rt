//! The loops of a program, by the entities of their iterators.

ghost use Rattle.std.specs.Prelude.{◌≡◌, ◌↔◌, IsTrue, [], None, length, replicate, IfOk};
ghost use Rattle.dh_tree.specs.Seen.{action_seen, all_parts_seen, maybe_block_seen, program_seen};
ghost use Rattle.dh_tree.specs.Counters.{counters, other_counters, groups_counters, AreSingle};
ghost use Rattle.dh_tree.specs.Excesses.{copies_excess, other_copies_excess, groups_copies_excess};
ghost use Rattle.dh_tree.specs.Resolved.{HasEntities};
ghost use Rattle.dh_tree.specs.Collected.{AreCountersByEntity, AreLoopsOf, CountsNext, FindsFew, FindsLoops, GoesInside, counter_of_header};

use crate::trees::sorts::declare_no_loop;
use crate::trees::{Command, CommandForm, LoopHeader, Tree};
use dh_base::{Limit, NoMemory};
use std::alloc::Global;

/// The iterator of a `for`: its values are those from `low` on below `high`, and `factor` copies of the
/// body take one each at a time.
#[derive(Clone, Copy, PartialEq, Eq)]
pub struct Counter {
    /// The number of its entity.
    pub entity: Option<u32>,
    /// Its first value.
    pub low: u64,
    /// The number after its last value.
    pub high: u64,
    /// The copies of the body.
    pub factor: u64,
}

/// The loops of a program.
#[derive(Drop)]
pub struct Loops {
    /// By the number of an entity the loop of which it is the iterator; empty where there is no loop.
    pub by_entity: Vec<Option<Counter>>,
    /// Whether each has one copy of its body at most.
    pub single: bool,
    /// Whether no place has more copies than the limit allows.
    pub few: bool,
}

/// The loop with this header.
fn counted(header: &LoopHeader) -> Counter
    ensures { result ≡ counter_of_header header.now }
{
    Counter {
        entity: header.iterator.entity,
        low: header.low,
        high: header.high,
        factor: header.factor,
    }
}

/// How many copies there are of a place inside a loop of this factor round which there are so many. Notes
/// where these are more than the limit allows: then the number tells nothing.
fn copies_inside(few: &mut bool, round: u64, factor: u64) -> u64
    ensures { GoesInside round factor few.old few.new result }
{
    let inside = round.saturating_mul(factor);
    if inside > Limit::Copies.greatest() {
        *few = false;
    }
    inside
}

/// Finds the loops of a command, in the order of the tree, a loop before those inside it; and whether each
/// place in it has few copies, where there are so many of the command.
#[cycle(finding_loops)]
#[tactic(auto, using(crate::proofs::SeenActions::actions_are, crate::proofs::Collecting::found_none, crate::proofs::Collecting::found_both, crate::proofs::FewCopies::few_none, crate::proofs::FewCopies::few_both))]
fn find_loops(
    found: &mut Vec<Counter>,
    few: &mut bool,
    round: u64,
    command: &Command,
) -> Result<(), NoMemory>
    ensures found { FindsLoops result found.old found.new (counters (action_seen command.now)) }
    ensures few { FindsFew result few.old few.new
        (copies_excess round (action_seen command.now)) }
{
    match &command.form {
        CommandForm::Block { body } => find_loops_in_parts(found, few, round, body.as_slice()),
        CommandForm::If { then, other, .. } => {
            find_loops(found, few, round, then)?;
            find_loops_in_other(found, few, round, other)
        }
        CommandForm::While { body, .. } => find_loops(found, few, round, body),
        CommandForm::For {
            header,
            body,
            combine,
        } => {
            let header = header.as_ref();
            found.push(counted(header))?;
            let inside = copies_inside(few, round, header.factor);
            find_loops(found, few, inside, body)?;
            find_loops_in_other(found, few, inside, combine)
        }
        CommandForm::Let { .. }
        | CommandForm::LetMemory { .. }
        | CommandForm::View { .. }
        | CommandForm::Assign { .. }
        | CommandForm::Store { .. }
        | CommandForm::Reduce { .. }
        | CommandForm::Call { .. } => Ok(()),
    }
}

/// Finds those of a block that may lack.
#[cycle(finding_loops)]
fn find_loops_in_other(
    found: &mut Vec<Counter>,
    few: &mut bool,
    round: u64,
    other: &Option<Box<Command>>,
) -> Result<(), NoMemory>
    ensures found { FindsLoops result found.old found.new
        (other_counters (maybe_block_seen other.now)) }
    ensures few { FindsFew result few.old few.new
        (other_copies_excess round (maybe_block_seen other.now)) }
{
    match other {
        Some(block) => find_loops(found, few, round, block),
        None => Ok(()),
    }
}

/// Finds those of parts.
#[cycle(finding_loops)]
fn find_loops_in_parts(
    found: &mut Vec<Counter>,
    few: &mut bool,
    round: u64,
    parts: &[Vec<Command>],
) -> Result<(), NoMemory>
    ensures found { FindsLoops result found.old found.new
        (groups_counters (all_parts_seen parts.now)) }
    ensures few { FindsFew result few.old few.new
        (groups_copies_excess round (all_parts_seen parts.now)) }
{
    for part in parts {
        for command in part {
            find_loops(found, few, round, command)?;
        }
    }
    Ok(())
}

/// Notes the loop of an iterator, where none is noted yet.
fn note_loop(slots: &mut [Option<Counter>], counter: Counter)
    ensures long { length slots.new ≡ length slots.old }
    ensures counted { CountsNext counter slots.old slots.new }
{
    if let Some(entity) = counter.entity {
        let entity = entity as usize;
        if entity < slots.len() && slots[entity].is_none() {
            slots[entity] = Some(counter);
        }
    }
}

/// For so many entities, of which none is an iterator.
fn no_loops(alloc: Global, count: usize) -> Result<Vec<Option<Counter>>, NoMemory>
    ensures { IfOk result (λ slots. slots.items ≡ replicate count None) }
{
    let mut slots = Vec::with_capacity(alloc, count)?;
    for _ in 0..count {
        slots.push(None)?;
    }
    Ok(slots)
}

/// Notes loops, in order.
fn note_loops(slots: &mut [Option<Counter>], found: &[Counter])
    ensures long { length slots.new ≡ length slots.old }
    ensures counted { AreCountersByEntity [] slots.old → AreCountersByEntity found.now slots.new }
{
    for counter in found {
        note_loop(slots, *counter);
    }
}

/// Finds the loops of a tree, and whether no place has more copies than the limit allows. There is no loop
/// where no entity is an iterator: then nothing is walked over.
fn loops_in(alloc: Global, tree: &Tree) -> Result<(Vec<Counter>, bool), NoMemory>
    requires { HasEntities (program_seen tree.now) }
    ensures found { IfOk result (λ f. f.0.items ≡ counters (action_seen tree.now.body)) }
    ensures few { IfOk result (λ f. IsTrue f.1
        → copies_excess 1 (action_seen tree.now.body) ≡ None) }
{
    let entities = tree.entities.as_slice();
    let mut found = Vec::new(alloc);
    let mut few = true;
    if declare_no_loop(entities) {
        return Ok((found, few));
    }
    find_loops(&mut found, &mut few, 1, &tree.body)?;
    Ok((found, few))
}

/// Whether each of these loops has one copy of its body at most.
fn are_single(found: &[Counter]) -> bool
    ensures { IsTrue result ↔ AreSingle found.now }
{
    for counter in found {
        if 1 < counter.factor {
            return false;
        }
    }
    true
}

/// The loops of a tree.
pub fn loops_of(alloc: Global, tree: &Tree) -> Result<Loops, NoMemory>
    requires { HasEntities (program_seen tree.now) }
    ensures { IfOk result (λ loops. AreLoopsOf tree.now loops) }
{
    let (found, few) = loops_in(alloc, tree)?;
    let list = found.as_slice();
    if list.is_empty() {
        return Ok(Loops {
            by_entity: Vec::new(alloc),
            single: true,
            few,
        });
    }
    let mut by_entity = no_loops(alloc, tree.entities.len())?;
    note_loops(by_entity.as_mut_slice(), found.as_slice());
    Ok(Loops {
        by_entity,
        single: are_single(found.as_slice()),
        few,
    })
}
