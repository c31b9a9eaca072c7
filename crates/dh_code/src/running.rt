//! What commands do in a logical step.

ghost use Rattle.std.specs.Prelude.{◌≡◌, ◌∷◌, ◌++◌, [], if◌then◌else◌, is_ok, IfErr, IfOk, OnOk, length, slice_set, slice_index_or};
ghost use Rattle.std.specs.List.{AllByRecursion};
ghost use Rattle.dh_value.specs.Words.{IsWord};
ghost use Rattle.dh_code.specs.declared.codes.Action.TheVariants.{Assign, Choose, Keep, Store};
ghost use Rattle.dh_code.specs.Banks.{HasBank, all_banks};
ghost use Rattle.dh_code.specs.Operated.{IsValidAccess, IsValidOperand};
ghost use Rattle.dh_code.specs.Rows.{contents_of};
ghost use Rattle.dh_code.specs.Scenes.{AreHeldValues, IsHeld, IsScene, AccessLeadsTo, SpendsWrite};
ghost use Rattle.dh_code.specs.Spent.{StayUsed};
ghost use Rattle.dh_code.specs.States.{AreWritten, AssignsVariable, CanBeDone, Decides, DoesAll, DoesOne, GoBackAlike, IsAside, IsAssigned, IsReadyState, KeepsAll, KeepsBack, KeepsSlots, KeepsVariables, Parts, Puts, SetsKept, ShowsFlat, SpendsFlat, Stores, bits_found, sight_in, undone_slots};

use crate::codes::{Access, Action, FlatExpression, Kept, Operand};
use crate::evaluating::{
    StepContext, StepStop, bank_at, element_at, operate, out_of_range, reached, set_number, stuck,
};
use crate::operands::{number_at, slot, truth, whole};
use crate::spending::{Bank, write_row};
use crate::spots::{Element, Spread};
use crate::straight::assign_on;
use crate::worths::{plain_value, value_in};
use dh_base::{NoMemory, Place};
use dh_value::{Word, cast};
use std::alloc::AllocFailed;

/// A write that the step is to make at its end.
#[derive(Clone, Copy)]
pub struct Write {
    /// The number of the memory.
    pub memory: usize,
    /// The place of the element in it.
    pub position: u64,
    /// The bits of the value.
    pub bits: u64,
}

/// What a slot held before an assignment.
#[derive(Clone, Copy)]
pub struct UndoEntry {
    /// The slot.
    pub slot: usize,
    /// What it held.
    pub before: u64,
}

/// What the commands of a step change.
#[derive(Drop)]
pub struct StepState {
    /// The slots of the variables: the value of each copy, modulo 2^64.
    pub variables: Vec<u64>,
    /// What each operation gave, by its number.
    pub given: Vec<u64>,
    /// The banks of the memories; a memory and its bank have one number.
    pub banks: Vec<Bank>,
    /// The writes so far, in order.
    pub writes: Vec<Write>,
    /// The assignments so far, in order.
    pub changes: Vec<UndoEntry>,
}

/// Sets a slot.
pub fn set(state: &mut StepState, slot: usize, bits: u64) -> Result<(), AllocFailed<UndoEntry>>
    ensures banks { state.new.banks ≡ state.old.banks }
    ensures given { state.new.given ≡ state.old.given }
    ensures writes { state.new.writes ≡ state.old.writes }
    ensures kept { length state.new.variables.items ≡ length state.old.variables.items }
    ensures set { IfOk result (λ _. IsAssigned state.old state.new slot bits) }
    ensures back { GoBackAlike state.old state.new }
{
    let before = number_at(state.variables.as_slice(), slot);
    state.changes.push(UndoEntry { slot, before })?;
    set_number(state.variables.as_mut_slice(), slot, bits);
    Ok(())
}

/// Notes a change where there is no room for it yet.
#[inline(never)]
fn note_further(changes: &mut Vec<UndoEntry>, change: UndoEntry) -> Result<(), NoMemory>
    ensures { changes.new.items
        ≡ (if is_ok result then changes.old.items ++ change ∷ [] else changes.old.items) }
{
    match changes.push(change) {
        Ok(()) => Ok(()),
        Err(_) => Err(NoMemory),
    }
}

/// Notes a change. (Mostly there is room for it: what makes room stands apart.)
#[inline(always)]
fn note(changes: &mut Vec<UndoEntry>, change: UndoEntry) -> Result<(), NoMemory>
    ensures { changes.new.items
        ≡ (if is_ok result then changes.old.items ++ change ∷ [] else changes.old.items) }
{
    if changes.len() >= changes.capacity() {
        return note_further(changes, change);
    }
    match changes.push(change) {
        Ok(()) => Ok(()),
        Err(_) => Err(NoMemory),
    }
}

/// Sets a slot, as `set` does, with an answer that fits a register.
#[inline(always)]
pub fn set_slot(state: &mut StepState, slot: usize, bits: u64) -> Result<(), NoMemory>
    ensures banks { state.new.banks ≡ state.old.banks }
    ensures given { state.new.given ≡ state.old.given }
    ensures writes { state.new.writes ≡ state.old.writes }
    ensures kept { length state.new.variables.items ≡ length state.old.variables.items }
    ensures set { IfOk result (λ _. IsAssigned state.old state.new slot bits) }
    ensures unset { IfErr result (λ _. state.new.variables ≡ state.old.variables) }
    ensures back { GoBackAlike state.old state.new }
{
    let before = number_at(state.variables.as_slice(), slot);
    note(&mut state.changes, UndoEntry { slot, before })?;
    set_number(state.variables.as_mut_slice(), slot, bits);
    Ok(())
}

/// Does the operations of an expression at a path of these ranks.
#[inline(never)]
fn evaluate_all(
    scene: &StepContext<'_>,
    state: &mut StepState,
    ranks: &[u32],
    value: &FlatExpression,
) -> Result<(), StepStop>
    requires scene { IsScene scene.now }
    requires ready { IsReadyState scene.now state.old }
    requires held { IsHeld scene.now.code.now.operations value.now }
    ensures ready { IsReadyState scene.now state.new }
    ensures kept { KeepsVariables state.old state.new }
    ensures seen { IfOk result
        (λ _. ShowsFlat scene.now state.old state.new ranks.now value.now) }
    ensures spends { SpendsFlat scene.now state.old result state.new ranks.now value.now }
{
    let operations = &scene.code.operations.as_slice()[value.from..value.to];
    operate(
        scene,
        state.variables.as_slice(),
        ranks,
        state.given.as_mut_slice(),
        state.banks.as_mut_slice(),
        value.from,
        operations,
    )
}

/// Does the operations of an expression at a path of these ranks, where it has any.
#[inline(always)]
fn evaluate(
    scene: &StepContext<'_>,
    state: &mut StepState,
    ranks: &[u32],
    value: &FlatExpression,
) -> Result<(), StepStop>
    requires scene { IsScene scene.now }
    requires ready { IsReadyState scene.now state.old }
    requires held { IsHeld scene.now.code.now.operations value.now }
    ensures ready { IsReadyState scene.now state.new }
    ensures kept { KeepsVariables state.old state.new }
    ensures seen { IfOk result
        (λ _. ShowsFlat scene.now state.old state.new ranks.now value.now) }
    ensures spends { SpendsFlat scene.now state.old result state.new ranks.now value.now }
{
    if value.from == value.to {
        return Ok(());
    }
    evaluate_all(scene, state, ranks, value)
}

/// Evaluates a right side of any operations at a path and sets a variable to it.
#[inline(always)]
fn assign_any(
    scene: &StepContext<'_>,
    state: &mut StepState,
    ranks: &[u32],
    value: &FlatExpression,
    first: u32,
    depth: u32,
) -> Result<(), StepStop>
    requires scene { IsScene scene.now }
    requires ready { IsReadyState scene.now state.old }
    requires held { IsHeld scene.now.code.now.operations value.now }
    ensures ready { IsReadyState scene.now state.new }
    ensures back { KeepsBack state.old state.new }
    ensures ran { AssignsVariable scene.now state.old result state.new ranks.now value.now first depth }
{
    evaluate(scene, state, ranks, value)?;
    let word = value_in(state, ranks, &value.value);
    set_slot(state, slot(first, depth, ranks), whole(word))?;
    Ok(())
}

/// Evaluates a right side at a path and sets a variable to it.
fn assign(
    scene: &StepContext<'_>,
    state: &mut StepState,
    ranks: &[u32],
    value: &FlatExpression,
    first: u32,
    depth: u32,
) -> Result<(), StepStop>
    requires scene { IsScene scene.now }
    requires ready { IsReadyState scene.now state.old }
    requires held { IsHeld scene.now.code.now.operations value.now }
    ensures ready { IsReadyState scene.now state.new }
    ensures back { KeepsBack state.old state.new }
    ensures ran { AssignsVariable scene.now state.old result state.new ranks.now value.now first depth }
{
    match plain_value(scene, state, ranks, value) {
        Some(word) => {
            set_slot(state, slot(first, depth, ranks), whole(word))?;
            Ok(())
        }
        None => assign_any(scene, state, ranks, value, first, depth),
    }
}

/// Adds what operands show, modulo 2^64, as a state sees them at a path of these ranks.
fn find(
    state: &StepState,
    ranks: &[u32],
    values: &[Kept],
    found: &mut Vec<u64>,
) -> Result<(), NoMemory>
    requires operands { AllByRecursion (λ k. IsValidOperand k.value) values.now }
    ensures { OnOk result (found.new.items
        ≡ found.old.items ++ bits_found state.now ranks.now values.now) }
{
    for kept in values {
        found.push(whole(value_in(state, ranks, &kept.value)))?;
    }
    Ok(())
}

/// Sets variables to what was found of their values.
fn set_all(
    state: &mut StepState,
    ranks: &[u32],
    values: &[Kept],
    depth: u32,
    found: &[u64],
) -> Result<(), NoMemory>
    requires long { length found.now ≡ length values.now }
    ensures banks { state.new.banks ≡ state.old.banks }
    ensures given { state.new.given ≡ state.old.given }
    ensures writes { state.new.writes ≡ state.old.writes }
    ensures kept { length state.new.variables.items ≡ length state.old.variables.items }
    ensures set { IfOk result (λ _.
        SetsKept state.old state.new ranks.now depth values.now found.now) }
    ensures back { GoBackAlike state.old state.new }
{
    for (i, kept) in values.iter().enumerate() {
        set(state, slot(kept.first, depth, ranks), found[i])?;
    }
    Ok(())
}

/// Evaluates values at a path and then keeps them in variables. (`found` is a list that is used again
/// at each path.)
fn keep(
    scene: &StepContext<'_>,
    state: &mut StepState,
    ranks: &[u32],
    range: (usize, usize),
    values: &[Kept],
    depth: u32,
    found: &mut Vec<u64>,
) -> Result<(), StepStop>
    requires scene { IsScene scene.now }
    requires ready { IsReadyState scene.now state.old }
    requires held { AreHeldValues scene.now.code.now.operations range.0 range.1 values.now }
    ensures ready { IsReadyState scene.now state.new }
    ensures back { KeepsBack state.old state.new }
    ensures ran { KeepsAll scene.now state.old result state.new ranks.now range.0 range.1
        values.now depth }
{
    let word = truth(false);
    let all = FlatExpression {
        from: range.0,
        to: range.1,
        value: Operand::Constant { word },
    };
    evaluate(scene, state, ranks, &all)?;
    found.clear();
    find(state, ranks, values, found)?;
    set_all(state, ranks, values, depth, found.as_slice())?;
    Ok(())
}

/// Takes the port that a write needs.
fn claim(
    scene: &StepContext<'_>,
    banks: &mut [Bank],
    place: Place,
    element: Element,
) -> Result<(), StepStop>
    requires scene { IsScene scene.now }
    requires there { HasBank scene.now.entries.now element.memory element.bank }
    requires long { length banks.old ≡ all_banks scene.now.entries.now }
    ensures long { length banks.new ≡ length banks.old }
    ensures used { StayUsed scene.now.step banks.old banks.new }
    ensures spends { SpendsWrite scene.now banks.old result banks.new place element }
{
    let at = bank_at(scene, element);
    let ports = scene.entries[element.memory].shape.ports;
    if write_row(&mut banks[at], ports, scene.step) {
        Ok(())
    } else {
        Err(stuck(place, element))
    }
}

/// Writes a value to an element at the end of the step.
fn put(
    scene: &StepContext<'_>,
    state: &mut StepState,
    place: Place,
    element: Element,
    value: Word,
) -> Result<(), StepStop>
    requires scene { IsScene scene.now }
    requires ready { IsReadyState scene.now state.old }
    requires there { HasBank scene.now.entries.now element.memory element.bank }
    requires word { IsWord value }
    ensures ready { IsReadyState scene.now state.new }
    ensures kept { KeepsSlots state.old state.new }
    ensures puts { Puts scene.now state.old result state.new place element value }
{
    claim(scene, state.banks.as_mut_slice(), place, element)?;
    let bits = cast(value, scene.entries[element.memory].shape.kind).bits;
    state.writes.push(Write {
        memory: element.memory,
        position: element.position,
        bits,
    })?;
    Ok(())
}

/// Where an access leads, as a state sees it at a path of these ranks; None where it is out of
/// range.
fn reached_in(
    scene: &StepContext<'_>,
    state: &StepState,
    ranks: &[u32],
    access: &Access,
) -> Option<Spread>
    requires scene { IsScene scene.now }
    requires access { IsValidAccess scene.now.entries.now access.now }
    ensures { AccessLeadsTo scene.now (sight_in state.now ranks.now) access.now result }
{
    reached(
        scene,
        state.variables.as_slice(),
        state.given.as_slice(),
        ranks,
        access,
    )
}

/// Evaluates a right side at a path, then the indices of an element, and writes the one to the
/// other.
fn store(
    scene: &StepContext<'_>,
    state: &mut StepState,
    ranks: &[u32],
    value: &FlatExpression,
    access: &Access,
) -> Result<(), StepStop>
    requires scene { IsScene scene.now }
    requires ready { IsReadyState scene.now state.old }
    requires held { IsHeld scene.now.code.now.operations value.now }
    requires access { IsValidAccess scene.now.entries.now access.now }
    ensures ready { IsReadyState scene.now state.new }
    ensures back { KeepsBack state.old state.new }
    ensures ran { Stores scene.now state.old result state.new ranks.now value.now access.now }
{
    evaluate(scene, state, ranks, value)?;
    let word = value_in(state, ranks, &value.value);
    let Some(spread) = reached_in(scene, state, ranks, access) else {
        return Err(out_of_range(access.place));
    };
    put(
        scene,
        state,
        access.place,
        element_at(access.memory, spread),
        word,
    )
}

/// Evaluates a test of any operations at a path of these ranks.
#[inline(never)]
fn decide_any(
    scene: &StepContext<'_>,
    state: &mut StepState,
    ranks: &[u32],
    test: &FlatExpression,
) -> Result<bool, StepStop>
    requires scene { IsScene scene.now }
    requires ready { IsReadyState scene.now state.old }
    requires held { IsHeld scene.now.code.now.operations test.now }
    ensures ready { IsReadyState scene.now state.new }
    ensures back { KeepsBack state.old state.new }
    ensures decides { Decides scene.now state.old result state.new ranks.now test.now }
{
    evaluate(scene, state, ranks, test)?;
    let word = value_in(state, ranks, &test.value);
    Ok(word.bits == 1)
}

/// Evaluates a test at a path of these ranks.
pub fn decide(
    scene: &StepContext<'_>,
    state: &mut StepState,
    ranks: &[u32],
    test: &FlatExpression,
) -> Result<bool, StepStop>
    requires scene { IsScene scene.now }
    requires ready { IsReadyState scene.now state.old }
    requires held { IsHeld scene.now.code.now.operations test.now }
    ensures ready { IsReadyState scene.now state.new }
    ensures back { KeepsBack state.old state.new }
    ensures decides { Decides scene.now state.old result state.new ranks.now test.now }
{
    match plain_value(scene, state, ranks, test) {
        Some(word) => Ok(word.bits == 1),
        None => decide_any(scene, state, ranks, test),
    }
}

/// The ranks of the path of a number; none where there is no such path.
pub fn ranks_at(rows: &[Vec<u32>], path: usize) -> &[u32]
    ensures { result.now ≡ slice_index_or (contents_of rows.now) path [] }
{
    match rows.get(path) {
        Some(ranks) => ranks.as_slice(),
        None => &[],
    }
}

/// Evaluates a right side at the one path and sets a variable to it. (Most of those of one operator
/// are done by `assign_on`.)
#[inline(always)]
fn assign_at(
    scene: &StepContext<'_>,
    state: &mut StepState,
    rows: &[Vec<u32>],
    paths: &[usize],
    value: &FlatExpression,
    first: u32,
    depth: u32,
) -> Result<(), StepStop>
    requires scene { IsScene scene.now }
    requires ready { IsReadyState scene.now state.old }
    requires held { IsHeld scene.now.code.now.operations value.now }
    requires one { length paths.now ≡ 1 }
    ensures ready { IsReadyState scene.now state.new }
    ensures back { KeepsBack state.old state.new }
    ensures ran { DoesOne scene.now state.old result state.new (contents_of rows.now) paths.now
        (Assign value.now first depth) }
{
    assign_any(scene, state, ranks_at(rows, paths[0]), value, first, depth)
}

/// Evaluates a right side at each path in order and sets a variable to it.
#[inline(never)]
fn assign_all(
    scene: &StepContext<'_>,
    state: &mut StepState,
    rows: &[Vec<u32>],
    paths: &[usize],
    value: &FlatExpression,
    first: u32,
    depth: u32,
) -> Result<(), StepStop>
    requires scene { IsScene scene.now }
    requires ready { IsReadyState scene.now state.old }
    requires held { IsHeld scene.now.code.now.operations value.now }
    ensures ready { IsReadyState scene.now state.new }
    ensures back { KeepsBack state.old state.new }
    ensures ran { DoesOne scene.now state.old result state.new (contents_of rows.now) paths.now
        (Assign value.now first depth) }
{
    for path in paths {
        assign(scene, state, ranks_at(rows, *path), value, first, depth)?;
    }
    Ok(())
}

/// Evaluates values at each path in order and keeps them in variables.
#[inline(never)]
fn keep_all(
    scene: &StepContext<'_>,
    state: &mut StepState,
    rows: &[Vec<u32>],
    paths: &[usize],
    range: (usize, usize),
    values: &[Kept],
    depth: u32,
) -> Result<(), StepStop>
    requires scene { IsScene scene.now }
    requires ready { IsReadyState scene.now state.old }
    requires held { AreHeldValues scene.now.code.now.operations range.0 range.1 values.now }
    ensures ready { IsReadyState scene.now state.new }
    ensures back { KeepsBack state.old state.new }
    ensures ran { DoesOne scene.now state.old result state.new (contents_of rows.now) paths.now
        (Keep range.0 range.1 values.now depth) }
{
    let mut found = Vec::new(scene.alloc);
    for path in paths {
        keep(
            scene,
            state,
            ranks_at(rows, *path),
            range,
            values,
            depth,
            &mut found,
        )?;
    }
    Ok(())
}

/// Stores a value at the one path.
#[inline(always)]
fn store_at(
    scene: &StepContext<'_>,
    state: &mut StepState,
    rows: &[Vec<u32>],
    paths: &[usize],
    value: &FlatExpression,
    access: &Access,
) -> Result<(), StepStop>
    requires scene { IsScene scene.now }
    requires ready { IsReadyState scene.now state.old }
    requires held { IsHeld scene.now.code.now.operations value.now }
    requires access { IsValidAccess scene.now.entries.now access.now }
    requires one { length paths.now ≡ 1 }
    ensures ready { IsReadyState scene.now state.new }
    ensures back { KeepsBack state.old state.new }
    ensures ran { DoesOne scene.now state.old result state.new (contents_of rows.now) paths.now
        (Store value.now access.now) }
{
    store(scene, state, ranks_at(rows, paths[0]), value, access)
}

/// Stores a value at each path in order.
#[inline(never)]
fn store_all(
    scene: &StepContext<'_>,
    state: &mut StepState,
    rows: &[Vec<u32>],
    paths: &[usize],
    value: &FlatExpression,
    access: &Access,
) -> Result<(), StepStop>
    requires scene { IsScene scene.now }
    requires ready { IsReadyState scene.now state.old }
    requires held { IsHeld scene.now.code.now.operations value.now }
    requires access { IsValidAccess scene.now.entries.now access.now }
    ensures ready { IsReadyState scene.now state.new }
    ensures back { KeepsBack state.old state.new }
    ensures ran { DoesOne scene.now state.old result state.new (contents_of rows.now) paths.now
        (Store value.now access.now) }
{
    for path in paths {
        store(scene, state, ranks_at(rows, *path), value, access)?;
    }
    Ok(())
}

/// Puts a path on one side or the other.
fn put_aside(
    holds: bool,
    path: usize,
    chosen: &mut Vec<usize>,
    other: &mut Vec<usize>,
) -> Result<(), NoMemory>
    ensures { IfOk result (λ _. IsAside holds path (chosen.old.items, other.old.items)
        (chosen.new.items, other.new.items)) }
{
    if holds {
        chosen.push(path)?;
    } else {
        other.push(path)?;
    }
    Ok(())
}

/// Evaluates a test at each path in order, and puts the paths on one side or the other.
fn part(
    scene: &StepContext<'_>,
    state: &mut StepState,
    rows: &[Vec<u32>],
    paths: &[usize],
    test: &FlatExpression,
) -> Result<(Vec<usize>, Vec<usize>), StepStop>
    requires scene { IsScene scene.now }
    requires ready { IsReadyState scene.now state.old }
    requires held { IsHeld scene.now.code.now.operations test.now }
    ensures ready { IsReadyState scene.now state.new }
    ensures back { KeepsBack state.old state.new }
    ensures parts { Parts scene.now state.old result state.new (contents_of rows.now) paths.now
        test.now }
{
    let mut chosen = Vec::new(scene.alloc);
    let mut other = Vec::new(scene.alloc);
    for path in paths {
        let holds = decide(scene, state, ranks_at(rows, *path), test)?;
        put_aside(holds, *path, &mut chosen, &mut other)?;
    }
    Ok((chosen, other))
}

/// One of two lists.
fn either(holds: bool, chosen: Option<usize>, other: Option<usize>) -> Option<usize>
    ensures { result ≡ (if holds then chosen else other) }
{
    if holds { chosen } else { other }
}

/// Does an `if` at one path: its test, and then an arm.
#[cycle(run)]
fn choose_at(
    scene: &StepContext<'_>,
    state: &mut StepState,
    rows: &[Vec<u32>],
    paths: &[usize],
    test: &FlatExpression,
    chosen: Option<usize>,
    other: Option<usize>,
) -> Result<(), StepStop>
    requires scene { IsScene scene.now }
    requires ready { IsReadyState scene.now state.old }
    requires held { IsHeld scene.now.code.now.operations test.now }
    requires one { length paths.now ≡ 1 }
    ensures ready { IsReadyState scene.now state.new }
    ensures back { KeepsBack state.old state.new }
    ensures ran { DoesOne scene.now state.old result state.new (contents_of rows.now) paths.now
        (Choose test.now chosen other) }
{
    let holds = decide(scene, state, ranks_at(rows, paths[0]), test)?;
    let arm = either(holds, chosen, other);
    if arm.is_none() {
        return Ok(());
    }
    run(scene, state, rows, paths, arm)
}

/// Does an `if` at paths: its test at each, then the one arm where it holds, then the other.
#[cycle(run)]
fn choose(
    scene: &StepContext<'_>,
    state: &mut StepState,
    rows: &[Vec<u32>],
    paths: &[usize],
    test: &FlatExpression,
    chosen: Option<usize>,
    other: Option<usize>,
) -> Result<(), StepStop>
    requires scene { IsScene scene.now }
    requires ready { IsReadyState scene.now state.old }
    requires held { IsHeld scene.now.code.now.operations test.now }
    ensures ready { IsReadyState scene.now state.new }
    ensures back { KeepsBack state.old state.new }
    ensures ran { DoesOne scene.now state.old result state.new (contents_of rows.now) paths.now
        (Choose test.now chosen other) }
{
    let (first, second) = part(scene, state, rows, paths, test)?;
    run(scene, state, rows, first.as_slice(), chosen)?;
    run(scene, state, rows, second.as_slice(), other)
}

/// Does a command at these paths.
#[cycle(run)]
fn run_one(
    scene: &StepContext<'_>,
    state: &mut StepState,
    rows: &[Vec<u32>],
    paths: &[usize],
    action: &Action,
) -> Result<(), StepStop>
    requires scene { IsScene scene.now }
    requires ready { IsReadyState scene.now state.old }
    requires done { CanBeDone scene.now action.now }
    ensures ready { IsReadyState scene.now state.new }
    ensures back { KeepsBack state.old state.new }
    ensures ran { DoesOne scene.now state.old result state.new (contents_of rows.now) paths.now
        action.now }
{
    match action {
        Action::Store { value, access } => {
            if paths.len() == 1 {
                store_at(scene, state, rows, paths, value, access)
            } else {
                store_all(scene, state, rows, paths, value, access)
            }
        }
        Action::Assign {
            value,
            first,
            depth,
        } => {
            if paths.len() == 1 {
                assign_at(scene, state, rows, paths, value, *first, *depth)
            } else {
                assign_all(scene, state, rows, paths, value, *first, *depth)
            }
        }
        Action::Keep {
            from,
            to,
            values,
            depth,
        } => keep_all(
            scene,
            state,
            rows,
            paths,
            (*from, *to),
            values.as_slice(),
            *depth,
        ),
        Action::Choose {
            test,
            chosen,
            other,
        } => {
            if paths.len() == 1 {
                choose_at(scene, state, rows, paths, test, *chosen, *other)
            } else {
                choose(scene, state, rows, paths, test, *chosen, *other)
            }
        }
    }
}

/// Does commands at these paths, each at all of them before the next one.
#[cycle(run)]
pub fn run(
    scene: &StepContext<'_>,
    state: &mut StepState,
    rows: &[Vec<u32>],
    paths: &[usize],
    mut list: Option<usize>,
) -> Result<(), StepStop>
    requires scene { IsScene scene.now }
    requires ready { IsReadyState scene.now state.old }
    ensures ready { IsReadyState scene.now state.new }
    ensures back { KeepsBack state.old state.new }
    ensures ran { DoesAll scene.now state.old result state.new (contents_of rows.now) paths.now
        list }
{
    list = assign_on(scene, state, rows, paths, list);
    while let Some(at) = list {
        let Some(step) = scene.code.steps.as_slice().get(at) else {
            return Ok(());
        };
        run_one(scene, state, rows, paths, &step.action)?;
        list = assign_on(scene, state, rows, paths, step.next);
    }
    Ok(())
}

/// Takes changes back, the last one first.
pub fn undo(variables: &mut [u64], changes: &[UndoEntry])
    ensures { variables.new ≡ undone_slots changes.now variables.old }
{
    for i in (0..changes.len()).rev() {
        set_number(variables, changes[i].slot, changes[i].before);
    }
}

/// Sets an element, where there is one.
fn set_element(values: &mut Vec<u64>, position: u64, bits: u64)
    ensures { values.new.items ≡ slice_set values.old.items position bits }
{
    set_number(values.as_mut_slice(), position as usize, bits);
}

/// Makes a write, where its element is.
fn make(memories: &mut Vec<Vec<u64>>, write: Write)
    ensures { AreWritten memories.old memories.new (write ∷ []) }
{
    if let Some(values) = memories.get_mut(write.memory) {
        set_element(values, write.position, write.bits);
    }
}

/// Makes writes, in order.
pub fn write_all(memories: &mut Vec<Vec<u64>>, writes: &[Write])
    ensures { AreWritten memories.old memories.new writes.now }
{
    for write in writes {
        make(memories, *write);
    }
}
