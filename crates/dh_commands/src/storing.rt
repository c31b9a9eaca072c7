//! Stores, at each path in turn.

ghost use Rattle.std.specs.Prelude.{◌≡◌, IfOk, slice_get};
ghost use Rattle.dh_tree.specs.Memories.{table_of};
ghost use Rattle.dh_tree.specs.Seen.{program_seen, term_seen};
ghost use Rattle.dh_meaning.specs.Effects.{entry_kind};
ghost use Rattle.dh_commands.specs.Setting.{AimsAtTarget, StoresAll, StoresOne};
ghost use Rattle.dh_tree.specs.Indices.{form_of};
ghost use Rattle.dh_commands.specs.LanesRun.{paths_counted};
ghost use Rattle.dh_commands.specs.MadeCommands.{MadeAim, MadeStored, StoredTo};

use crate::buildings::Building;
use dh_base::NoMemory;
use dh_expressions::{
    Accesses, Aim, Around, Draft, Lane, Scene, memory_of, push_aim, push_held, push_row, push_term,
    push_write,
};
use dh_phases::behind_term;
use dh_tree::{Expr, ExprForm, Kind};

/// Adds the indices of a store's target, with what stands behind them, or its row; None of what is no access, which stores nothing.
#[tactic(auto, using(dh_tree::proofs::SeenTerms::terms_are))]
fn aim_at(
    scene: &Scene<'_>,
    lane: &Lane<'_>,
    current: &[Option<u64>],
    accesses: &mut Accesses,
    draft: &mut Draft,
    first: u32,
    target: &Expr,
) -> Result<Option<(Aim, usize)>, NoMemory>
    ensures means { IfOk result (λ aimed. AimsAtTarget scene.now lane.now current.now draft.old
        draft.new accesses.old accesses.new first (term_seen target.now) aimed) }
    ensures made { IfOk result (λ aimed. MadeAim scene.now lane.now current.now (form_of (term_seen
        target.now)) draft.old draft.new accesses.old accesses.new first aimed) }
{
    match &target.form {
        ExprForm::Access { of, indices } => {
            let indices = indices.as_slice();
            let aim = push_aim(scene, lane, current, accesses, draft, first, of, indices)?;
            Ok(Some((aim, memory_of(scene, of))))
        }
        ExprForm::Physical { of, row, .. } => {
            let aim = push_row(scene, lane, current, accesses, draft, first, row)?;
            Ok(Some((aim, memory_of(scene, of))))
        }
        ExprForm::Number { .. } => Ok(None),
        ExprForm::Truth { .. } => Ok(None),
        ExprForm::Variable { .. } => Ok(None),
        ExprForm::Binary { .. } => Ok(None),
        ExprForm::Cast { .. } => Ok(None),
    }
}

/// The kind of the elements of a memory.
fn element_kind(scene: &Scene<'_>, memory: usize) -> Kind
    ensures { result ≡ entry_kind (slice_get (table_of (program_seen scene.now.program.now))
        memory) }
{
    match scene.program.memories().as_slice().get(memory) {
        Some(entry) => entry.shape.kind,
        None => Kind::Bool,
    }
}

/// Stores a value at one path. Gives the number of the next access.
fn store_at(
    scene: &Scene<'_>,
    lane: &Lane<'_>,
    building: &mut Building,
    first: u32,
    target: &Expr,
    value: &Expr,
) -> Result<u32, NoMemory>
    ensures means { IfOk result (λ next. StoresOne scene.now lane.now building.old building.new
        first next (term_seen target.now) (term_seen value.now)) }
    ensures made { IfOk result (λ next. MadeStored scene.now lane.now first (term_seen target.now)
        (term_seen value.now) building.old building.new next) }
{
    let current = building.values.current.as_slice();
    let accesses = &mut building.accesses;
    let draft = &mut building.draft;
    let own = push_term(scene, lane, current, accesses, draft, first, value)?;
    let Some((aim, memory)) = aim_at(scene, lane, current, accesses, draft, own.next, target)?
    else {
        // no text has such a target; its accesses have their numbers all the same
        return Ok(behind_term(own.next, target));
    };
    let held = push_held(draft, value, own.value, element_kind(scene, memory))?;
    let next = aim.number.saturating_add(1);
    push_write(scene, lane, accesses, draft, target, memory, &aim, held)?;
    Ok(next)
}

/// Stores a value at each path.
pub fn store_all(
    scene: &Scene<'_>,
    around: Around<'_>,
    building: &mut Building,
    first: u32,
    target: &Expr,
    value: &Expr,
) -> Result<u32, NoMemory>
    ensures means { IfOk result (λ next. StoresAll scene.now around.entry building.old building.new
        first next (term_seen target.now) (term_seen value.now)) }
    ensures made { IfOk result (λ next. StoredTo scene.now around.entry first (term_seen target.now)
        (term_seen value.now) (paths_counted around.entry) building.old building.new next) }
{
    let mut next = first;
    for i in 0..around.guards.len() {
        let lane = Lane {
            around,
            number: i as u64,
        };
        next = store_at(scene, &lane, building, first, target, value)?;
    }
    Ok(next)
}
