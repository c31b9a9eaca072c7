//! Assignments and reducers, at each path in turn.

ghost use Rattle.std.specs.Prelude.{ℕ, IfOk, OnOk};
ghost use Rattle.dh_tree.specs.Seen.{term_seen};
ghost use Rattle.dh_meaning.specs.CoreOf.{entity_number};
ghost use Rattle.dh_expressions.specs.Drafted.{Gives, word_shown};
ghost use Rattle.dh_expressions.specs.Shown.{extended_shown};
ghost use Rattle.dh_commands.specs.Followed.{in_own_kind, old_extended};
ghost use Rattle.dh_commands.specs.Setting.{AssignsAll, AssignsOne, ClearsAll, ClearsOne, GivesReduced, ReducesAll, ReducesOne, SetsAt};
ghost use Rattle.dh_expressions.specs.MadeValues.{MadeConverted};
ghost use Rattle.dh_commands.specs.LanesRun.{paths_counted};
ghost use Rattle.dh_commands.specs.MadeCommands.{AssignedTo, ClearedTo, MadeAssigned, MadeCleared, MadeFolded, MadeOldOperand, MadeOperand, MadeReduced, ReducedTo};

use crate::assignments::{Values, assign};
use crate::buildings::Building;
use dh_base::NoMemory;
use dh_code::{VariableSlots, extension, is_same, kind_found, literal, place_of};
use dh_expressions::{
    Around, Draft, Lane, Scene, push_compute, push_constant, push_convert, push_held, push_shown,
    push_term, slot_at,
};
use dh_tree::{Expr, Kind, Ref};
use dh_value::Op;

/// Gives a variable a value at a path.
fn set(
    scene: &Scene<'_>,
    lane: &Lane<'_>,
    values: &mut Values,
    target: &Ref,
    value: u64,
) -> Result<(), NoMemory>
    ensures { OnOk result (SetsAt scene.now lane.now values.old values.new (entity_number
        target.now.entity) value) }
{
    let register = slot_at(place_of(scene.held, target), lane);
    assign(values, register, lane.number, value)
}

/// Assigns an expression to a variable, at one path. Gives the number of the next access.
fn assign_at(
    scene: &Scene<'_>,
    lane: &Lane<'_>,
    building: &mut Building,
    first: u32,
    target: &Ref,
    value: &Expr,
) -> Result<u32, NoMemory>
    ensures means { IfOk result (λ next. AssignsOne scene.now lane.now building.old building.new
        first next (entity_number target.now.entity) (term_seen value.now)) }
    ensures made { IfOk result (λ next. MadeAssigned scene.now lane.now first (entity_number
        target.now.entity) (term_seen value.now) building.old building.new next) }
{
    let current = building.values.current.as_slice();
    let accesses = &mut building.accesses;
    let own = push_term(
        scene,
        lane,
        current,
        accesses,
        &mut building.draft,
        first,
        value,
    )?;
    let kind = place_of(scene.held, target).kind;
    let held = push_held(&mut building.draft, value, own.value, kind)?;
    set(scene, lane, &mut building.values, target, held)?;
    Ok(own.next)
}

/// Assigns an expression to a variable, at each path.
pub fn assign_all(
    scene: &Scene<'_>,
    around: Around<'_>,
    building: &mut Building,
    first: u32,
    target: &Ref,
    value: &Expr,
) -> Result<u32, NoMemory>
    ensures means { IfOk result (λ next. AssignsAll scene.now around.entry building.old building.new
        first next (entity_number target.now.entity) (term_seen value.now)) }
    ensures made { IfOk result (λ next. AssignedTo scene.now around.entry first (entity_number
        target.now.entity) (term_seen value.now) (paths_counted around.entry) building.old
        building.new next) }
{
    let mut next = first;
    for i in 0..around.guards.len() {
        let lane = Lane {
            around,
            number: i as u64,
        };
        next = assign_at(scene, &lane, building, first, target, value)?;
    }
    Ok(next)
}

/// Sets a variable to 0 or false, at one path.
fn clear_at(
    scene: &Scene<'_>,
    lane: &Lane<'_>,
    building: &mut Building,
    target: &Ref,
) -> Result<(), NoMemory>
    ensures means { OnOk result (ClearsOne scene.now lane.now building.old building.new
        (entity_number target.now.entity)) }
    ensures made { OnOk result (MadeCleared scene.now lane.now (entity_number target.now.entity)
        building.old building.new) }
{
    let kind = place_of(scene.held, target).kind;
    let value = push_constant(&mut building.draft, literal(kind, false, 0))?;
    set(scene, lane, &mut building.values, target, value)?;
    Ok(())
}

/// Sets a variable to 0 or false, at each path.
pub fn clear_all(
    scene: &Scene<'_>,
    around: Around<'_>,
    building: &mut Building,
    target: &Ref,
) -> Result<(), NoMemory>
    ensures means { OnOk result (ClearsAll scene.now around.entry building.old building.new
        (entity_number target.now.entity)) }
    ensures made { OnOk result ((first : ℕ) → ClearedTo scene.now around.entry first (entity_number
        target.now.entity) (paths_counted around.entry) building.old building.new first) }
{
    for i in 0..around.guards.len() {
        let lane = Lane {
            around,
            number: i as u64,
        };
        clear_at(scene, &lane, building, target)?;
    }
    Ok(())
}

/// Adds what a variable of a kind holds, as an operand that is extended to an integer kind.
fn push_old_operand(draft: &mut Draft, old: u64, kind: Kind, to: Kind) -> Result<u64, NoMemory>
    ensures means { IfOk result (λ v. Gives draft.old draft.new v (λ x. old_extended kind to (word_shown
        x old))) }
    ensures made { IfOk result (λ v. MadeOldOperand kind to old draft.old draft.new v) }
{
    match to {
        Kind::Bool => Ok(old),
        Kind::Unsigned(_) => push_own(draft, old, is_same(kind, to), to),
        Kind::Signed(_) => push_own(draft, old, is_same(kind, to), to),
    }
}

/// Adds a value in a kind; nothing is done where it is one of that kind.
fn push_own(draft: &mut Draft, value: u64, own: bool, to: Kind) -> Result<u64, NoMemory>
    ensures means { IfOk result (λ v. Gives draft.old draft.new v (λ x. in_own_kind own to (word_shown x
        value))) }
    ensures made { IfOk result (λ v. MadeConverted own to value draft.old draft.new v) }
{
    if own {
        return Ok(value);
    }
    push_convert(draft, value, to)
}

/// Adds an operand, extended to an integer kind; as it is for Bool.
fn push_operand(draft: &mut Draft, from: &Expr, value: u64, to: Kind) -> Result<u64, NoMemory>
    ensures means { IfOk result (λ v. Gives draft.old draft.new v (λ x. extended_shown (term_seen
        from.now) to (word_shown x value))) }
    ensures made { IfOk result (λ v. MadeOperand (term_seen from.now) to value draft.old draft.new
        v) }
{
    match to {
        Kind::Bool => Ok(value),
        Kind::Unsigned(_) => push_held(draft, from, value, to),
        Kind::Signed(_) => push_held(draft, from, value, to),
    }
}

/// Adds what a reducer puts together, as its variable holds it.
fn push_reduced(
    scene: &Scene<'_>,
    lane: &Lane<'_>,
    current: &[Option<u64>],
    draft: &mut Draft,
    target: &Ref,
    op: Op,
    value: &Expr,
    own: u64,
) -> Result<u64, NoMemory>
    ensures means { IfOk result (λ made. GivesReduced scene.now lane.now current.now draft.old
        draft.new own made (entity_number target.now.entity) op (term_seen value.now)) }
    ensures made { IfOk result (λ made. MadeFolded scene.now lane.now current.now (entity_number
        target.now.entity) op (term_seen value.now) own draft.old draft.new made) }
{
    let held = place_of(scene.held, target);
    let to = extension(op, held.kind, kind_found(value.kind));
    let old = push_shown(draft, current, slot_at(held, lane))?;
    let left = push_old_operand(draft, old, held.kind, to)?;
    let right = push_operand(draft, value, own, to)?;
    let all = push_compute(draft, op, left, right)?;
    push_own(draft, all, is_same(held.kind, to), held.kind)
}

/// Puts a variable and a value together, at one path. Gives the number of the next access.
fn reduce_at(
    scene: &Scene<'_>,
    lane: &Lane<'_>,
    building: &mut Building,
    first: u32,
    target: &Ref,
    op: Op,
    value: &Expr,
) -> Result<u32, NoMemory>
    ensures means { IfOk result (λ next. ReducesOne scene.now lane.now building.old building.new
        first next target.now op (term_seen value.now)) }
    ensures made { IfOk result (λ next. MadeReduced scene.now lane.now first (entity_number
        target.now.entity) op (term_seen value.now) building.old building.new next) }
{
    let current = building.values.current.as_slice();
    let accesses = &mut building.accesses;
    let draft = &mut building.draft;
    let own = push_term(scene, lane, current, accesses, draft, first, value)?;
    let made = push_reduced(scene, lane, current, draft, target, op, value, own.value)?;
    set(scene, lane, &mut building.values, target, made)?;
    Ok(own.next)
}

/// Puts a variable and a value together, at each path in turn.
pub fn reduce_all(
    scene: &Scene<'_>,
    around: Around<'_>,
    building: &mut Building,
    first: u32,
    target: &Ref,
    op: Op,
    value: &Expr,
) -> Result<u32, NoMemory>
    ensures means { IfOk result (λ next. ReducesAll scene.now around.entry building.old building.new
        first next target.now op (term_seen value.now)) }
    ensures made { IfOk result (λ next. ReducedTo scene.now around.entry first (entity_number
        target.now.entity) op (term_seen value.now) (paths_counted around.entry) building.old
        building.new next) }
{
    let mut next = first;
    let copies = around.guards.len();
    for i in 0..copies {
        let lane = Lane {
            around,
            number: i as u64,
        };
        next = reduce_at(scene, &lane, building, first, target, op, value)?;
    }
    Ok(next)
}
