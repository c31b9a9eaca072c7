//! The banks that the copies of an access reach.

ghost use Rattle.std.specs.Prelude.{◌≡◌, ◌≤◌, ◌*◌, ◌+◌, IfOk, None, false, length, replicate};
ghost use Rattle.std.specs.List.{AllByRecursion};
ghost use Rattle.dh_tree.specs.Elements.{banks_of};
ghost use Rattle.dh_tree.specs.Memories.{memories_of, number_in, table_of};
ghost use Rattle.dh_tree.specs.Seen.{form_seen, program_seen};
ghost use Rattle.dh_tree.specs.Shapes.{most_banks, IsDim, IsProgramTable};
ghost use Rattle.dh_ways.specs.Leading.{LeadsTo};
ghost use Rattle.dh_ways.specs.Seen.{way_seen};
ghost use Rattle.dh_events.specs.Accesses.{entity_in};
ghost use Rattle.dh_base.specs.Limits.{most_copies};
ghost use Rattle.dh_ports.specs.Carriers.{IsCarrier};
ghost use Rattle.dh_ports.specs.Copies.{copies_round};
ghost use Rattle.dh_size.specs.Led.{AreProgramViews};
ghost use Rattle.dh_size.specs.Marks.{AreAllMarked};
ghost use Rattle.dh_size.specs.NumberedPaths.{numbered_bank};
ghost use Rattle.dh_size.specs.Sizes as definitions;
ghost use Rattle.dh_size.specs.Sizes.{led_banks, met_banks, own_banks, size_of_access};

use crate::paths::{bank_at, copies_in};
use crate::through::{Views, count_behind, count_carried};
use dh_base::NoMemory;
use dh_ports::{Carrier, bank_count, entity_of};
use dh_tree::{Counter, Dim, Expr, ExprForm, Typed};
use dh_ways::WayRef;
use std::alloc::Global;

/// The number of the memory that an access names, if it is one.
fn memory_of(typed: &Typed, access: &Expr) -> Option<usize>
    ensures { result ≡ number_in (memories_of (program_seen typed.now))
        (entity_in (form_seen access.now.form)) }
{
    match entity_of(access) {
        Some(entity) => typed.memory_number(entity),
        None => None,
    }
}

/// The bank that an access reaches at the path of a number.
fn bank_reached(
    typed: &Typed,
    loops: &[Counter],
    copies: u64,
    number: u64,
    dims: &[Dim],
    access: &Expr,
) -> u64
    requires dims { AllByRecursion IsDim dims.now }
    requires few { banks_of dims.now ≤ most_banks }
    requires copies { copies ≡ copies_round loops.now }
    requires some { 1 ≤ copies }
    ensures { result ≡ numbered_bank typed.now loops.now number dims.now access.now }
{
    match &access.form {
        ExprForm::Access { indices, .. } => {
            bank_at(typed, loops, copies, number, dims, indices.as_slice())
        }
        ExprForm::Physical { bank, .. } => *bank,
        ExprForm::Number { .. } => 0,
        ExprForm::Truth { .. } => 0,
        ExprForm::Variable { .. } => 0,
        ExprForm::Binary { .. } => 0,
        ExprForm::Cast { .. } => 0,
    }
}

/// No mark of so many is set.
fn no_marks(alloc: Global, count: u64) -> Result<Vec<bool>, NoMemory>
    ensures { IfOk result (λ marks. marks.items ≡ replicate count false) }
{
    let mut marks = Vec::new(alloc);
    for _ in 0..count {
        marks.push(false)?;
    }
    Ok(marks)
}

/// For each bank of a memory whether some copy of an access reaches it.
fn reached_banks(
    alloc: Global,
    typed: &Typed,
    loops: &[Counter],
    copies: u64,
    dims: &[Dim],
    access: &Expr,
) -> Result<Vec<bool>, NoMemory>
    requires dims { AllByRecursion IsDim dims.now }
    requires few { banks_of dims.now ≤ most_banks }
    requires copies { copies ≡ copies_round loops.now }
    ensures { IfOk result (λ marks. AreAllMarked typed.now loops.now copies dims.now access.now
        marks.items) }
{
    let banks = bank_count(dims);
    let mut marks = no_marks(alloc, banks)?;
    for number in 0..copies {
        let bank = bank_reached(typed, loops, copies, number, dims, access);
        if bank < banks {
            marks[bank as usize] = true;
        }
    }
    Ok(marks)
}

/// How many marks are set.
fn count_marks(marks: &[bool]) -> u64
    requires few { length marks.now ≤ most_banks }
    ensures { result ≡ definitions.marked marks.now }
{
    let mut count: u64 = 0;
    for mark in marks {
        if *mark {
            count = count + 1;
        }
    }
    count
}

/// The banks of a memory that an access of one copy reaches: one, if the memory has it.
fn one_bank(typed: &Typed, loops: &[Counter], copies: u64, dims: &[Dim], access: &Expr) -> u64
    requires dims { AllByRecursion IsDim dims.now }
    requires few { banks_of dims.now ≤ most_banks }
    requires copies { copies ≡ copies_round loops.now }
    requires one { copies ≡ 1 }
    ensures { result ≡ own_banks typed.now loops.now dims.now access.now }
{
    let bank = bank_reached(typed, loops, copies, 0, dims, access);
    if bank < bank_count(dims) { 1 } else { 0 }
}

/// The banks of a memory that the copies of an access reach.
fn banks_within(
    alloc: Global,
    typed: &Typed,
    loops: &[Counter],
    copies: u64,
    dims: &[Dim],
    access: &Expr,
) -> Result<u64, NoMemory>
    requires dims { AllByRecursion IsDim dims.now }
    requires few { banks_of dims.now ≤ most_banks }
    requires copies { copies ≡ copies_round loops.now }
    ensures { IfOk result (λ banks. banks ≡ own_banks typed.now loops.now dims.now access.now) }
{
    // no marks are made for the many accesses outside every unrolled loop
    if copies == 1 {
        return Ok(one_bank(typed, loops, copies, dims, access));
    }
    let marks = reached_banks(alloc, typed, loops, copies, dims, access)?;
    Ok(count_marks(marks.as_slice()))
}

/// The banks of its memory that the copies of an access reach through the views on a way.
fn banks_through(
    alloc: Global,
    typed: &Typed,
    loops: &[Counter],
    copies: u64,
    way: &WayRef<'_>,
    carrier: &Carrier,
    access: &Expr,
) -> Result<u64, NoMemory>
    requires table { IsProgramTable (table_of (program_seen typed.now)) }
    requires copies { copies ≡ copies_round loops.now }
    requires leads { LeadsTo (memories_of (program_seen typed.now)) (way_seen way.now) }
    requires carrier { IsCarrier (way_seen way.now) carrier.now }
    ensures met { IfOk result (λ banks. banks ≡ led_banks typed.now loops.now way.now access.now) }
    ensures few { IfOk result (λ banks. banks ≤ most_banks) }
{
    let named = way.view();
    let dims = named.shape.dims.as_slice();
    // no marks are made for the many accesses outside every unrolled loop
    if copies == 1 {
        let bank = bank_reached(typed, loops, copies, 0, dims, access);
        let count = count_carried(carrier, bank);
        return Ok(count);
    }
    let marks = reached_banks(alloc, typed, loops, copies, dims, access)?;
    let count = count_behind(carrier, marks.as_slice());
    Ok(count)
}

/// The banks of its memory that the copies of an access of what is no memory reach.
fn banks_led(
    alloc: Global,
    typed: &Typed,
    views: Views<'_>,
    loops: &[Counter],
    copies: u64,
    access: &Expr,
) -> Result<u64, NoMemory>
    requires table { IsProgramTable (table_of (program_seen typed.now)) }
    requires views { AreProgramViews (program_seen typed.now) views }
    requires copies { copies ≡ copies_round loops.now }
    requires other { number_in (memories_of (program_seen typed.now))
        (entity_in (form_seen access.now.form)) ≡ None }
    ensures met { IfOk result (λ banks. banks ≡ met_banks typed.now loops.now access.now) }
    ensures few { IfOk result (λ banks. banks ≤ most_banks) }
{
    let entity = entity_of(access);
    let Some(place) = views.ways.place_of(entity) else {
        return Ok(0);
    };
    let way = views.ways.at(place);
    let each = views.carriers;
    let banks = banks_through(alloc, typed, loops, copies, &way, &each[place], access)?;
    Ok(banks)
}

/// The banks that the copies of an access reach of the memory that its name leads to.
fn banks_met(
    alloc: Global,
    typed: &Typed,
    views: Views<'_>,
    loops: &[Counter],
    copies: u64,
    access: &Expr,
) -> Result<u64, NoMemory>
    requires table { IsProgramTable (table_of (program_seen typed.now)) }
    requires views { AreProgramViews (program_seen typed.now) views }
    requires copies { copies ≡ copies_round loops.now }
    ensures met { IfOk result (λ banks. banks ≡ met_banks typed.now loops.now access.now) }
    ensures few { IfOk result (λ banks. banks ≤ most_banks) }
{
    let Some(memory) = memory_of(typed, access) else {
        return banks_led(alloc, typed, views, loops, copies, access);
    };
    let Some(entry) = typed.memories().as_slice().get(memory) else {
        return Ok(0);
    };
    let dims = entry.shape.dims.as_slice();
    let banks = banks_within(alloc, typed, loops, copies, dims, access)?;
    Ok(banks)
}

/// The size of an access in these loops, which shares an earlier read or does not: in each copy it is 1, and 1 more
/// for each bank that it charges.
pub fn access_size(
    alloc: Global,
    typed: &Typed,
    views: Views<'_>,
    loops: &[Counter],
    access: &Expr,
    shares: bool,
) -> Result<u64, NoMemory>
    requires table { IsProgramTable (table_of (program_seen typed.now)) }
    requires views { AreProgramViews (program_seen typed.now) views }
    requires few { copies_round loops.now ≤ most_copies }
    ensures { IfOk result (λ size. size ≡ size_of_access typed.now loops.now access.now shares) }
{
    let copies = copies_in(loops);
    if shares {
        return Ok(copies);
    }
    let banks = banks_met(alloc, typed, views, loops, copies, access)?;
    Ok(copies * (banks + 1))
}
