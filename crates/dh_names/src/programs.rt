//! The names of whole programs.

ghost use Rattle.std.specs.Prelude.{◌≡◌, ◌+◌, ◌<◌, ◌^◌, [], None, OnOk, OnErr, MatchResult, length};
ghost use Rattle.dh_tree.specs.Seen.{program_seen};
ghost use Rattle.dh_base.specs.declared.faults.PassFault.TheVariants as fault;
ghost use Rattle.dh_tree.specs.Breaches.{KeepsNames};
ghost use Rattle.dh_tree.specs.Resolved.{HasEntities};
ghost use Rattle.dh_tree.specs.NameCounts.{HasFewNames, names_declared};
ghost use Rattle.dh_names.specs.Programs.{ResolvesProgram, AnswersBuilt, IsStart, NumbersItems, IsWalked, SettlesNames, entities_outside, NumbersMemories, is_function_first, AreLeft, BindsItem, LacksItem, BindsItems, FindsTwice};

use crate::bindings::Bindings;
use crate::forms::keep_functions;
use crate::scopes::{VisibleNames, bind_name, list_entity};
use crate::walks::NameWalk;
use dh_base::{NoMemory, PassFault};
use dh_tree::{Breach, Decl, Entity, Function, Named, Sort, Tree, is_before};
use std::alloc::Global;

// Lists the entities of memories from outside and of functions, where none is listed yet.
fn list_outer(
    alloc: Global,
    entities: &mut Vec<Entity>,
    decls: &[Decl],
    functions: &[Function],
) -> Result<(), NoMemory>
    requires { entities.old.items ≡ [] }
    ensures { MatchResult result
        (λ _. entities.new.items ≡ entities_outside decls.now functions.now)
        (λ _. 0 < length decls.now + length functions.now) }
{
    for decl in decls {
        list_entity(alloc, entities, &decl.name, Sort::Memory)?;
    }
    for function in functions {
        list_entity(alloc, entities, &function.name, Sort::Function)?;
    }
    Ok(())
}

// Numbers memories from outside, from 0.
fn number_decls(decls: &mut Vec<Decl>)
    requires few { length decls.old.items < 2 ^ 32 }
    ensures { NumbersMemories decls.old decls.new }
{
    let mut number = 0;
    for decl in decls.iter_mut() {
        decl.name.entity = Some(number);
        number += 1;
    }
}

// Whether the function with this index is the next item in text order, before the memory with that
// index.
fn function_is_next(decls: &[Decl], functions: &[Function], memory: usize, function: usize) -> bool
    ensures { result ≡ is_function_first decls.now functions.now (memory, function) }
{
    match (functions.get(function), decls.get(memory)) {
        (Some(function), Some(decl)) => is_before(function.name.place, decl.name.place),
        (Some(_), None) => true,
        (None, _) => false,
    }
}

// Makes the name visible that is the next in text order, where `done` counts the memories and the
// functions that are visible already, and counts it too.
fn bind_next(
    alloc: Global,
    names: &mut VisibleNames,
    least: &mut Option<Breach>,
    decls: &[Decl],
    functions: &[Function],
    done: (usize, usize),
) -> Result<(usize, usize), NoMemory>
    requires few { length decls.now + length functions.now < 2 ^ 32 }
    requires left { AreLeft decls.now functions.now done }
    ensures outer { names.new.outer ≡ names.old.outer }
    ensures next { MatchResult result
        (BindsItem decls.now functions.now names.old least.old done names.new least.new)
        (λ _. LacksItem decls.now functions.now names.old least.old done names.new least.new) }
{
    let (memory, function) = done;
    if function_is_next(decls, functions, memory, function) {
        let number = (decls.len() + function) as u32;
        bind_name(alloc, names, least, &functions[function].name, number)?;
        Ok((memory, function + 1))
    } else {
        bind_name(alloc, names, least, &decls[memory].name, memory as u32)?;
        Ok((memory + 1, function))
    }
}

// Makes memories from outside and functions visible, in text order.
fn bind_items(
    alloc: Global,
    names: &mut VisibleNames,
    least: &mut Option<Breach>,
    decls: &[Decl],
    functions: &[Function],
) -> Result<(), NoMemory>
    requires few { length decls.now + length functions.now < 2 ^ 32 }
    ensures outer { names.new.outer ≡ names.old.outer }
    ensures names { OnOk result (BindsItems decls.now functions.now names.old names.new) }
    ensures least { OnOk result (FindsTwice decls.now functions.now names.old least.old least.new) }
    ensures memory { OnErr result (0 < length decls.now + length functions.now) }
{
    let mut done = (0, 0);
    for _ in 0..decls.len() + functions.len() {
        done = bind_next(alloc, names, least, decls, functions, done)?;
    }
    Ok(())
}

fn no_names(alloc: Global) -> VisibleNames
    ensures outer { result.outer ≡ [] }
    ensures own { result.own ≡ [] }
{
    VisibleNames {
        outer: Bindings::new(alloc),
        own: Bindings::new(alloc),
    }
}

/// What a walk over a program finds.
#[derive(Drop)]
struct WalkFindings {
    /// The breach of the rules on names that stands first.
    least: Option<Breach>,
    /// The form that stands first of those that are not built.
    unbuilt: Option<Breach>,
}

// The walk over memories from outside and functions, which is the first one. Lists their entities, and
// makes their names visible in `names`, of which functions see those of earlier functions alone.
fn walk_items(
    alloc: Global,
    walk: &mut NameWalk,
    names: &mut VisibleNames,
    tree: &mut Tree,
) -> Result<(), NoMemory>
    requires few { HasFewNames (program_seen tree.old) }
    requires start { IsStart walk.old names.old }
    ensures body { tree.new.body ≡ tree.old.body }
    ensures items { MatchResult result (λ _. NumbersItems tree.old tree.new walk.new names.new)
        (λ _. 0 < names_declared (program_seen tree.old)) }
{
    let count = tree.decls.len() as u32;
    bind_items(alloc, names, &mut walk.least, &tree.decls, &tree.functions)?;
    list_outer(alloc, &mut walk.entities, &tree.decls, &tree.functions)?;
    number_decls(&mut tree.decls);
    walk.functions(alloc, &mut tree.functions, count)
}

// The walk over a program, whose tree takes its numbers and entities where it stands: functions first,
// then its body.
fn walk_program(alloc: Global, tree: &mut Tree) -> Result<WalkFindings, NoMemory>
    requires few { HasFewNames (program_seen tree.old) }
    ensures { MatchResult result (λ found. IsWalked (program_seen tree.old) tree.new found)
        (λ _. 0 < names_declared (program_seen tree.old)) }
{
    let mut names = no_names(alloc);
    let mut walk = NameWalk {
        names: no_names(alloc),
        entities: Vec::new(alloc),
        least: None,
    };
    let mut unbuilt = None;
    keep_functions(&mut unbuilt, tree.functions.as_slice());
    walk_items(alloc, &mut walk, &mut names, tree)?;
    walk.names = names;
    walk.command(alloc, &mut unbuilt, &mut tree.body)?;
    tree.entities = walk.entities;
    Ok(WalkFindings {
        least: walk.least,
        unbuilt,
    })
}

// The fault of a program with this breach, whose tree is let go.
fn refused(tree: Tree, breach: Breach) -> PassFault
    ensures { result ≡ fault.Refused breach.rule breach.place }
{
    tree.let_go();
    PassFault::Refused {
        rule: breach.rule,
        place: breach.place,
    }
}

// The fault of a program for which memory was wanting, whose tree is let go.
fn starved(tree: Tree) -> PassFault
    ensures { result ≡ fault.NoMemory }
{
    tree.let_go();
    PassFault::NoMemory
}

// The tree that is resolved, unless a rule on names is broken.
fn named(tree: Tree, least: Option<Breach>) -> Result<Named, PassFault>
    requires names { least ≡ None → KeepsNames (program_seen tree) }
    requires entities { HasEntities (program_seen tree) }
    ensures { SettlesNames tree least result }
{
    match least {
        Some(breach) => Err(refused(tree, breach)),
        None => Ok(Named::of(tree)),
    }
}

/// Gives each name of the tree the number of what it stands for, and lists the entities. Refuses a
/// tree with a name that is not visible where it is used, or that is visible already where it is
/// declared, with the breach that stands first.
///
/// # Errors
///
/// `Refused` with `UnknownName` at a name that is not visible, or with `NameTwice` at the name of a
/// declaration. `NoMemory` where an allocation was refused; a tree that declares no name takes none.
pub fn resolve(alloc: Global, tree: Tree) -> Result<Named, PassFault>
    requires few { HasFewNames (program_seen tree) }
    ensures { ResolvesProgram (program_seen tree) result }
{
    let mut tree = tree;
    match walk_program(alloc, &mut tree) {
        Ok(found) => named(tree, found.least),
        Err(_) => Err(starved(tree)),
    }
}

/// As `resolve`, of a tree whose forms are all built. Refuses any other with the form that stands first
/// of those that are not built, whatever its names break.
///
/// # Errors
///
/// Those of `resolve`, and `Refused` with `Unsupported` at a form that is not built.
pub fn resolve_built(alloc: Global, tree: Tree) -> Result<Named, PassFault>
    requires few { HasFewNames (program_seen tree) }
    ensures { AnswersBuilt (program_seen tree) result }
{
    let mut tree = tree;
    match walk_program(alloc, &mut tree) {
        Ok(found) => match found.unbuilt {
            Some(form) => Err(refused(tree, form)),
            None => named(tree, found.least),
        },
        Err(_) => Err(starved(tree)),
    }
}
