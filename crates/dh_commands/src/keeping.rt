//! Views that move, at each path in turn: their offsets are evaluated, and variables keep them.

ghost use Rattle.std.specs.Prelude.{◌≡◌, ◌+◌, map, option_map, slice_get, IfOk, OnOk};
ghost use Rattle.dh_tree.specs.Seen.{view_plan, term_seen, terms};
ghost use Rattle.dh_tree.specs.ViewOffsets.{offsets_of};
ghost use Rattle.dh_meaning.specs.CoreOf.{way_of};
ghost use Rattle.dh_meaning.specs.Ways.{hidden_in};
ghost use Rattle.dh_ways.specs.Seen.{hidden_seen};
ghost use Rattle.dh_expressions.specs.Drafted.{Gives, word_shown};
ghost use Rattle.dh_expressions.specs.Evaluated.{GivesAll, known_in};
ghost use Rattle.dh_expressions.specs.MadeTerms.{MadeTerms};
ghost use Rattle.dh_commands.specs.Keeping.{EvaluatesWords, held_words, kept_shown, paired};
ghost use Rattle.dh_commands.specs.LanesRun.{paths_counted};
ghost use Rattle.dh_commands.specs.MadeCommands.{KeptTo, KeptView, MadeHold, MadeHolds, MadeKept};
ghost use Rattle.dh_commands.specs.Setting.{KeepsAtAllPaths, KeepsOne, KeepsView, SetsAt, SetsFrom};

use crate::assignments::{Values, assign};
use crate::buildings::Building;
use dh_base::NoMemory;
use dh_code::place_behind;
use dh_expressions::{
    Accesses, Around, Draft, Lane, Scene, first_kept, push_held, push_term, slot_at,
};
use dh_tree::{Expr, Ref, ViewForm};
use dh_ways::Hidden;

/// Adds the operations of offsets at a path, from the left. Gives their values, and the number of the next access.
fn push_each(
    scene: &Scene<'_>,
    lane: &Lane<'_>,
    current: &[Option<u64>],
    accesses: &mut Accesses,
    draft: &mut Draft,
    first: u32,
    offsets: &[Expr],
) -> Result<(Vec<u64>, u32), NoMemory>
    ensures means { IfOk result (λ r. EvaluatesWords scene.now lane.now current.now draft.old
        draft.new accesses.old accesses.new first (map term_seen offsets.now) r.0.items r.1) }
    ensures made { IfOk result (λ r. MadeTerms scene.now lane.now current.now (terms (map term_seen
        offsets.now)) draft.old draft.new accesses.old accesses.new first r.1 r.0.items) }
{
    let mut values = Vec::new(scene.alloc);
    let mut next = first;
    for offset in offsets {
        let valued = push_term(scene, lane, current, accesses, draft, next, offset)?;
        values.push(valued.value)?;
        next = valued.next;
    }
    Ok((values, next))
}

/// Adds those of the offsets of a suffix.
fn push_pairs(
    scene: &Scene<'_>,
    lane: &Lane<'_>,
    current: &[Option<u64>],
    accesses: &mut Accesses,
    draft: &mut Draft,
    first: u32,
    by: &[(u64, Expr)],
) -> Result<(Vec<u64>, u32), NoMemory>
    ensures means { IfOk result (λ r. EvaluatesWords scene.now lane.now current.now draft.old
        draft.new accesses.old accesses.new first (paired by.now) r.0.items r.1) }
    ensures made { IfOk result (λ r. MadeTerms scene.now lane.now current.now (terms (paired
        by.now)) draft.old draft.new accesses.old accesses.new first r.1 r.0.items) }
{
    let mut values = Vec::new(scene.alloc);
    let mut next = first;
    for pair in by {
        let valued = push_term(scene, lane, current, accesses, draft, next, &pair.1)?;
        values.push(valued.value)?;
        next = valued.next;
    }
    Ok((values, next))
}

/// Adds those of the offsets of a view.
fn push_offsets(
    scene: &Scene<'_>,
    lane: &Lane<'_>,
    current: &[Option<u64>],
    accesses: &mut Accesses,
    draft: &mut Draft,
    first: u32,
    form: &ViewForm,
) -> Result<(Vec<u64>, u32), NoMemory>
    ensures means { IfOk result (λ r. EvaluatesWords scene.now lane.now current.now draft.old
        draft.new accesses.old accesses.new first (offsets_of (view_plan form.now)) r.0.items r.1) }
    ensures made { IfOk result (λ r. MadeTerms scene.now lane.now current.now (terms (offsets_of
        (view_plan form.now))) draft.old draft.new accesses.old accesses.new first r.1 r.0.items) }
{
    match form {
        ViewForm::Shrink { .. } => Ok((Vec::new(scene.alloc), first)),
        ViewForm::Split { .. } => Ok((Vec::new(scene.alloc), first)),
        ViewForm::Suffix { by, .. } => {
            push_pairs(scene, lane, current, accesses, draft, first, by.as_slice())
        }
        ViewForm::Shift { by } => {
            push_each(scene, lane, current, accesses, draft, first, by.as_slice())
        }
    }
}

/// The offset of this number among those of a suffix.
fn offset_paired(by: &[(u64, Expr)], number: usize) -> Option<&Expr>
    ensures { option_map (λ t. term_seen t.now) result ≡ slice_get (paired by.now) number }
{
    match by.get(number) {
        Some(pair) => Some(&pair.1),
        None => None,
    }
}

/// The offset of this number among those of a shift.
fn offset_listed(by: &[Expr], number: usize) -> Option<&Expr>
    ensures { option_map (λ t. term_seen t.now) result ≡ slice_get (map term_seen by.now) number }
{
    match by.get(number) {
        Some(offset) => Some(offset),
        None => None,
    }
}

/// The offset of a view of this number.
fn offset_at(form: &ViewForm, number: usize) -> Option<&Expr>
    ensures { option_map (λ t. term_seen t.now) result
        ≡ slice_get (offsets_of (view_plan form.now)) number }
{
    match form {
        ViewForm::Shrink { .. } => None,
        ViewForm::Split { .. } => None,
        ViewForm::Suffix { by, .. } => offset_paired(by.as_slice(), number),
        ViewForm::Shift { by } => offset_listed(by.as_slice(), number),
    }
}

/// Adds the value of the offset of this number as the variable holds it whose entity stands so many behind another.
fn hold_behind(
    scene: &Scene<'_>,
    draft: &mut Draft,
    first: u32,
    number: usize,
    form: &ViewForm,
    value: u64,
) -> Result<u64, NoMemory>
    ensures means { IfOk result (λ v. Gives draft.old draft.new v (λ x. kept_shown scene.now (first
        + number) (slice_get (offsets_of (view_plan form.now)) number) (word_shown x value))) }
    ensures made { IfOk result (λ v. MadeHold scene.now (first + number) (slice_get (offsets_of
        (view_plan form.now)) number) value draft.old draft.new v) }
{
    match offset_at(form, number) {
        Some(offset) => {
            let kind = place_behind(scene.held, first, number).kind;
            push_held(draft, offset, value, kind)
        }
        None => Ok(value),
    }
}

/// Adds the values of the offsets of a view as variables hold them, whose entities follow one another from this one on.
fn hold_each(
    scene: &Scene<'_>,
    draft: &mut Draft,
    first: u32,
    form: &ViewForm,
    values: &[u64],
) -> Result<Vec<u64>, NoMemory>
    ensures means { IfOk result (λ held. GivesAll draft.old draft.new held.items (λ x. held_words
        scene.now first (offsets_of (view_plan form.now)) (map (λ n. word_shown x n) values.now))) }
    ensures made { IfOk result (λ held. MadeHolds scene.now first (offsets_of (view_plan form.now))
        values.now draft.old draft.new held.items) }
{
    let mut held = Vec::new(scene.alloc);
    for (i, value) in values.iter().enumerate() {
        let kept = hold_behind(scene, draft, first, i, form, *value)?;
        held.push(kept)?;
    }
    Ok(held)
}

/// Gives the variable whose entity stands so many behind another a value at a path.
fn set_behind(
    scene: &Scene<'_>,
    lane: &Lane<'_>,
    values: &mut Values,
    first: u32,
    number: usize,
    value: u64,
) -> Result<(), NoMemory>
    ensures { OnOk result (SetsAt scene.now lane.now values.old values.new (first + number)
        value) }
{
    let register = slot_at(place_behind(scene.held, first, number), lane);
    assign(values, register, lane.number, value)
}

/// Gives variables values at a path, whose entities follow one another from this one on.
fn set_from(
    scene: &Scene<'_>,
    lane: &Lane<'_>,
    values: &mut Values,
    first: u32,
    kept: &[u64],
) -> Result<(), NoMemory>
    ensures { OnOk result (SetsFrom scene.now lane.now values.old values.new first kept.now) }
{
    for (i, value) in kept.iter().enumerate() {
        set_behind(scene, lane, values, first, i, *value)?;
    }
    Ok(())
}

/// Keeps the offsets of a view at one path, the first of them in this variable. Gives the number of the next access.
fn keep_at(
    scene: &Scene<'_>,
    lane: &Lane<'_>,
    building: &mut Building,
    first: u32,
    hidden: Hidden,
    form: &ViewForm,
) -> Result<u32, NoMemory>
    ensures means { IfOk result (λ next. KeepsOne scene.now lane.now building.old building.new first
        next (hidden_seen hidden) (offsets_of (view_plan form.now))) }
    ensures made { IfOk result (λ next. MadeKept scene.now lane.now first hidden.entity (offsets_of
        (view_plan form.now)) building.old building.new next) }
{
    let current = building.values.current.as_slice();
    let accesses = &mut building.accesses;
    let draft = &mut building.draft;
    let (values, next) = push_offsets(scene, lane, current, accesses, draft, first, form)?;
    let draft = &mut building.draft;
    let held = hold_each(scene, draft, hidden.entity, form, values.as_slice())?;
    let kept = held.as_slice();
    set_from(scene, lane, &mut building.values, hidden.entity, kept)?;
    Ok(next)
}

/// Keeps the offsets of a view at each path.
fn keep_all(
    scene: &Scene<'_>,
    around: Around<'_>,
    building: &mut Building,
    first: u32,
    hidden: Hidden,
    form: &ViewForm,
) -> Result<u32, NoMemory>
    ensures means { IfOk result (λ next. KeepsAtAllPaths scene.now around.entry building.old building.new
        first next (hidden_seen hidden) (offsets_of (view_plan form.now))) }
    ensures made { IfOk result (λ next. KeptTo scene.now around.entry first hidden.entity
        (offsets_of (view_plan form.now)) (paths_counted around.entry) building.old building.new
        next) }
{
    let mut next = first;
    for i in 0..around.guards.len() {
        let lane = Lane {
            around,
            number: i as u64,
        };
        next = keep_at(scene, &lane, building, first, hidden, form)?;
    }
    Ok(next)
}

/// Keeps the offsets of a view, where a variable keeps one on its way. Gives the number of the next access: this one
/// where none does.
pub fn keep_view(
    scene: &Scene<'_>,
    around: Around<'_>,
    building: &mut Building,
    first: u32,
    idle: u32,
    name: &Ref,
    form: &ViewForm,
) -> Result<u32, NoMemory>
    ensures means { IfOk result (λ next. KeepsView scene.now around.entry building.old building.new
        first idle next (hidden_in (way_of (known_in scene.now) name.now)) (offsets_of (view_plan
        form.now))) }
    ensures made { IfOk result (λ next. KeptView scene.now around.entry building.old building.new
        first idle next (hidden_in (way_of (known_in scene.now) name.now)) (offsets_of (view_plan
        form.now))) }
{
    match first_kept(scene, name) {
        Some(hidden) => keep_all(scene, around, building, first, hidden, form),
        None => Ok(idle),
    }
}
