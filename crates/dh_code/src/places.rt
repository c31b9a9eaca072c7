//! The variables of a program: where each has its slots.

ghost use Rattle.std.specs.Prelude.{◌≡◌, ◌+◌, ◌≤◌, ◌++◌, [], None, drop, length, map, option_map, replicate, IfOk, OnOk};
ghost use Rattle.std.specs.List.{AllByRecursion};
ghost use Rattle.dh_tree.specs.Seen.{action_seen, term_seen};
ghost use Rattle.dh_meaning.specs.Bindings as bindings;
ghost use Rattle.dh_tree.specs.Kinds.{iterator_kind};
ghost use Rattle.dh_meaning.specs.CoreOf.{entity_number};
ghost use Rattle.dh_code.specs.Placed.{AreFew, AreFewHidden, AreLaidSlots, ArePlaces, Declares, DeclaresOther, DeclaresParts, LoopStandsInside, KeepsFound, copies_held, has_few, held_of, hidden_as, most_entities};
ghost use Rattle.dh_code.specs.Declarations.{declarations};
ghost use Rattle.dh_code.specs.Slots.{held_at};

use crate::operands::{entity_of, kind_found};
use dh_base::NoMemory;
use dh_tree::{Command, CommandForm, Expr, Kind, Ref};
use dh_ways::Hidden;
use std::alloc::Global;

/// A variable where it is declared.
#[derive(Clone, Copy)]
pub struct Declared {
    /// The number of its entity, if it has one.
    pub entity: Option<u32>,
    /// The kind of its values.
    pub kind: Kind,
    /// The unrolled loops round its declaration; for the iterator of one that one among them.
    pub depth: u32,
    /// The copies of these loops together.
    pub copies: u64,
}

/// The slots of a variable.
#[derive(Clone, Copy)]
pub struct VariableSlots {
    /// The kind of its values.
    pub kind: Kind,
    /// Of how many loops round it each copy has a slot.
    pub depth: u32,
    /// The slot of its first copy.
    pub first: u32,
}

/// The slots of all variables.
#[derive(Drop)]
pub struct Places {
    /// Those of each entity.
    pub held: Vec<VariableSlots>,
    /// How many slots there are.
    pub count: u32,
}

/// The kind of a `let`.
fn let_kind(declared: Option<Kind>, value: &Option<Expr>) -> Kind
    ensures { result ≡ bindings.let_kind declared (option_map term_seen value.now) }
{
    match declared {
        Some(kind) => kind,
        None => match value {
            Some(value) => kind_found(value.kind),
            None => Kind::Bool,
        },
    }
}

/// The kind of an iterator.
fn iterator_kind(declared: Option<Kind>) -> Kind
    ensures { result ≡ iterator_kind declared }
{
    match declared {
        Some(kind) => kind,
        None => Kind::Unsigned(32),
    }
}

/// How many loops there are inside one more, and how many copies they have; one of a single copy
/// adds none. Each stays at its type's greatest number, to which no loops within the limit come.
fn inside(depth: u32, copies: u64, factor: u64) -> (u32, u64)
    ensures { LoopStandsInside depth copies factor result.0 result.1 }
{
    if factor <= 1 {
        (depth, copies)
    } else {
        (depth.saturating_add(1), copies.saturating_mul(factor))
    }
}

/// Lists the variables that a command declares, in text order, inside so many unrolled loops.
#[cycle(declaring)]
#[tactic(auto, using(dh_tree::proofs::SeenActions::actions_are))]
fn declare(
    list: &mut Vec<Declared>,
    depth: u32,
    copies: u64,
    command: &Command,
) -> Result<(), NoMemory>
    ensures { OnOk result (Declares list.old.items list.new.items depth copies command.now) }
{
    match &command.form {
        CommandForm::Let {
            declared,
            name,
            value,
        } => Ok(list.push(Declared {
            entity: name.entity,
            kind: let_kind(*declared, value),
            depth,
            copies,
        })?),
        CommandForm::Block { body } => declare_parts(list, depth, copies, body.as_slice()),
        CommandForm::If { then, other, .. } => {
            declare(list, depth, copies, then)?;
            declare_other(list, depth, copies, other)
        }
        CommandForm::While { body, .. } => declare(list, depth, copies, body),
        CommandForm::For {
            header,
            body,
            combine,
        } => {
            let header = header.as_ref();
            let (depth, copies) = inside(depth, copies, header.factor);
            list.push(Declared {
                entity: header.iterator.entity,
                kind: iterator_kind(header.declared),
                depth,
                copies,
            })?;
            declare(list, depth, copies, body)?;
            declare_other(list, depth, copies, combine)
        }
        CommandForm::LetMemory { .. } => Ok(()),
        CommandForm::View { .. } => Ok(()),
        CommandForm::Assign { .. } => Ok(()),
        CommandForm::Store { .. } => Ok(()),
        CommandForm::Reduce { .. } => Ok(()),
        CommandForm::Call { .. } => Ok(()),
    }
}

/// Those of a block that may lack.
#[cycle(declaring)]
fn declare_other(
    list: &mut Vec<Declared>,
    depth: u32,
    copies: u64,
    other: &Option<Box<Command>>,
) -> Result<(), NoMemory>
    ensures { OnOk result (DeclaresOther list.old.items list.new.items depth copies other.now) }
{
    match other {
        Some(block) => declare(list, depth, copies, block),
        None => Ok(()),
    }
}

/// Those of parts.
#[cycle(declaring)]
fn declare_parts(
    list: &mut Vec<Declared>,
    depth: u32,
    copies: u64,
    parts: &[Vec<Command>],
) -> Result<(), NoMemory>
    ensures { OnOk result (DeclaresParts list.old.items list.new.items depth copies parts.now) }
{
    for part in parts {
        for command in part {
            declare(list, depth, copies, command)?;
        }
    }
    Ok(())
}

/// For so many entities, of which none is a variable.
fn none_declared(alloc: Global, count: usize) -> Result<Vec<Option<Declared>>, NoMemory>
    ensures { IfOk result (λ found. found.items ≡ replicate count None) }
{
    let mut found = Vec::new(alloc);
    for _ in 0..count {
        found.push(None)?;
    }
    Ok(found)
}

/// Notes the variable of an entity, where it is none yet.
fn note(found: &mut [Option<Declared>], variable: Declared)
    ensures long { length found.new ≡ length found.old }
    ensures found { KeepsFound found.old found.new variable }
{
    if let Some(entity) = variable.entity {
        let entity = entity as usize;
        if entity < found.len() && found[entity].is_none() {
            found[entity] = Some(variable);
        }
    }
}

/// The slots of a variable, behind so many; what is no variable has one.
fn slots_of(variable: Option<Declared>, first: u32) -> VariableSlots
    ensures { result ≡ held_of variable first }
{
    match variable {
        Some(variable) => VariableSlots {
            kind: variable.kind,
            depth: variable.depth,
            first,
        },
        None => VariableSlots {
            kind: Kind::Bool,
            depth: 0,
            first,
        },
    }
}

/// How many slots it takes.
fn copies_of(variable: Option<Declared>) -> u64
    ensures { result ≡ copies_held variable }
{
    match variable {
        Some(variable) => variable.copies,
        None => 1,
    }
}

/// The slots of these variables, one behind the other.
fn laid(alloc: Global, found: &[Option<Declared>]) -> Result<Places, NoMemory>
    requires few { AllByRecursion has_few found.now }
    requires entities { length found.now ≤ most_entities }
    ensures { IfOk result (λ places. AreLaidSlots found.now places.held.items places.count) }
{
    let mut places = Vec::new(alloc);
    let mut count = 0;
    for variable in found {
        places.push(slots_of(*variable, count))?;
        count += copies_of(*variable) as u32;
    }
    Ok(Places {
        held: places,
        count,
    })
}

/// Lists variables that keep offsets.
fn declare_hidden(list: &mut Vec<Declared>, hidden: &[Hidden]) -> Result<(), NoMemory>
    ensures { OnOk result (list.new.items ≡ list.old.items ++ map hidden_as hidden.now) }
{
    for one in hidden {
        list.push(Declared {
            entity: Some(one.entity),
            kind: one.kind,
            depth: one.depth,
            copies: one.copies,
        })?;
    }
    Ok(())
}

/// The slots of the variables of a program with so many entities, and of those behind them that keep
/// offsets of its views. None of them has more copies than the limit on copies lets it have.
pub fn place_all(
    alloc: Global,
    body: &Command,
    hidden: &[Hidden],
    entities: usize,
) -> Result<Places, NoMemory>
    requires few { AreFew (declarations [] (action_seen body.now)) }
    requires hidden { AreFewHidden hidden.now }
    requires entities { entities + length hidden.now ≤ most_entities }
    ensures { IfOk result (λ places. ArePlaces body.now hidden.now (entities + length hidden.now)
        places.held.items places.count) }
{
    let mut list = Vec::new(alloc);
    declare(&mut list, 0, 1, body)?;
    declare_hidden(&mut list, hidden)?;
    let mut found = none_declared(alloc, entities + hidden.len())?;
    for variable in &list {
        note(found.as_mut_slice(), *variable);
    }
    laid(alloc, found.as_slice())
}

/// The slots of the variable that is an entity.
pub fn place_at(places: &[VariableSlots], entity: usize) -> VariableSlots
    ensures { result ≡ held_at places.now entity }
{
    match places.get(entity) {
        Some(held) => *held,
        None => slots_of(None, 0),
    }
}

/// Those behind so many.
fn behind(places: &[VariableSlots], count: usize) -> &[VariableSlots]
    requires { count ≤ length places.now }
    ensures { result.now ≡ drop count places.now }
{
    &places[count..]
}

/// The slots of the variable whose entity stands so many behind another.
pub fn place_behind(places: &[VariableSlots], entity: u32, number: usize) -> VariableSlots
    ensures { result ≡ held_at places.now (entity + number) }
{
    let entity = entity as usize;
    if entity < places.len() {
        place_at(behind(places, entity), number)
    } else {
        slots_of(None, 0)
    }
}

/// The slots of the variable that a name stands for.
pub fn place_of(places: &[VariableSlots], of: &Ref) -> VariableSlots
    ensures { result ≡ held_at places.now (entity_number of.now.entity) }
{
    place_at(places, entity_of(of) as usize)
}
