//! What names of a program stand for: memories, and views with their ways to memories.

ghost use Rattle.std.specs.Prelude.{◌≡◌, option_map, slice_get};
ghost use Rattle.dh_tree.specs.Seen.{form_seen};
ghost use Rattle.dh_meaning.specs.CoreOf.{entity_number, memory_of as memory_found, way_of as way_found};
ghost use Rattle.dh_meaning.specs.Ways.{hidden_in};
ghost use Rattle.dh_ways.specs.Seen.{hidden_seen, way_seen};
ghost use Rattle.dh_expressions.specs.Named.{banks_seen, first_view, known_in, no_banks, number_of_parent, set_or_none, shifts_on, way_named};

use crate::kinds::narrow;
use crate::scenes::Scene;
use dh_code::{Names, first_hidden};
use dh_tree::{Expr, ExprForm, Ref};
use dh_viewing::BankSet;
use dh_ways::{Hidden, WayRef};

/// The number of the memory that a name stands for, or leads to.
pub fn memory_of(scene: &Scene<'_>, of: &Ref) -> usize
    ensures { result ≡ memory_found (known_in scene.now) of.now }
{
    let names = Names {
        alloc: scene.alloc,
        program: scene.program,
        ways: scene.ways,
        places: scene.held,
    };
    dh_code::memory_of(&names, of)
}

/// The way of what a name stands for, where that is a view.
pub fn way_in<'a>(scene: &Scene<'a>, of: &Ref) -> Option<WayRef<'a>>
    ensures { option_map way_seen result ≡ way_found (known_in scene.now) of.now }
{
    let names = Names {
        alloc: scene.alloc,
        program: scene.program,
        ways: scene.ways,
        places: scene.held,
    };
    dh_code::way_of(&names, of)
}

/// The first variable that keeps an offset on the way of what a name stands for, if there is one.
pub fn first_kept(scene: &Scene<'_>, of: &Ref) -> Option<Hidden>
    ensures { option_map hidden_seen result
        ≡ slice_get (hidden_in (way_found (known_in scene.now) of.now)) 0 }
{
    let names = Names {
        alloc: scene.alloc,
        program: scene.program,
        ways: scene.ways,
        places: scene.held,
    };
    first_hidden(&names, of)
}

/// The way of what an access names, where that is a view; a row is one of a memory.
#[tactic(auto, using(dh_tree::proofs::SeenTerms::terms_are))]
pub fn way_through<'a>(scene: &Scene<'a>, access: &Expr) -> Option<WayRef<'a>>
    ensures { option_map way_seen result
        ≡ way_named (known_in scene.now) (form_seen access.now.form) }
{
    match &access.form {
        ExprForm::Access { of, .. } => way_in(scene, of),
        ExprForm::Physical { .. } => None,
        ExprForm::Number { .. } => None,
        ExprForm::Truth { .. } => None,
        ExprForm::Variable { .. } => None,
        ExprForm::Binary { .. } => None,
        ExprForm::Cast { .. } => None,
    }
}

/// The loops round the deepest shift on the way of what an access names; none of a memory.
pub fn shifts_through(scene: &Scene<'_>, access: &Expr) -> u32
    ensures { result ≡ shifts_on (way_named (known_in scene.now) (form_seen access.now.form)) }
{
    match way_through(scene, access) {
        Some(way) => way.shifts(),
        None => 0,
    }
}

/// The number of a view among those of the plan.
pub fn view_number(scene: &Scene<'_>, of: &Ref) -> u32
    ensures { result ≡ first_view scene.now of.now }
{
    match scene.ways.place_of(of.entity) {
        Some(place) => narrow(place as u64),
        None => 0,
    }
}

/// The number of the view behind one of a number.
pub fn view_behind(scene: &Scene<'_>, number: u32) -> u32
    ensures { result ≡ number_of_parent scene.now.through.now number }
{
    match scene.through.get(number as usize) {
        Some(through) => through.behind,
        None => 0,
    }
}

/// No bank.
fn nothing() -> BankSet
    ensures { result ≡ no_banks }
{
    BankSet { bits: 0 }
}

/// The set of a bank, among those of all banks.
fn set_of(sets: &[BankSet], bank: u32) -> BankSet
    ensures { result ≡ set_or_none (slice_get sets.now bank) }
{
    match sets.get(bank as usize) {
        Some(set) => *set,
        None => nothing(),
    }
}

/// The banks of the memory that may be reached from a bank of a view.
pub fn banks_behind(scene: &Scene<'_>, of: &Ref, bank: u32) -> BankSet
    ensures { result ≡ banks_seen scene.now of.now bank }
{
    let number = view_number(scene, of);
    match scene.through.get(number as usize) {
        Some(through) => set_of(through.banks.as_slice(), bank),
        None => nothing(),
    }
}
