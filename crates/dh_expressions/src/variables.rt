//! What variables hold at a path: the value that they were given in this step, or else that of
//! their register.

ghost use Rattle.std.specs.Prelude.{◌≡◌, map, IfOk};
ghost use Rattle.dh_ways.specs.Seen.{hidden_seen};
ghost use Rattle.dh_expressions.specs.Drafted.{Gives};
ghost use Rattle.dh_expressions.specs.Evaluated.{ShowsHidden, hidden_register, hidden_shown};
ghost use Rattle.dh_expressions.specs.MadeTerms.{MadeHidden};
ghost use Rattle.dh_expressions.specs.MadeValues.{MadeShown};
ghost use Rattle.dh_expressions.specs.Shown.{register_at, variable_shown};

use crate::drafts::{Draft, push_old};
use crate::paths::rank_at;
use crate::scenes::{Lane, Scene};
use dh_base::{Items, NoMemory};
use dh_code::{VariableSlots, place_at};
use dh_ways::Hidden;

/// The register of a variable at a path.
pub fn slot_at(held: VariableSlots, lane: &Lane<'_>) -> u64
    ensures { result ≡ register_at held lane.now }
{
    let rank = rank_at(lane.around.levels, held.depth, lane.number);
    u64::from(held.first).saturating_add(rank)
}

/// Adds what the variable of a register holds: the value that it was given in this step, or else
/// what the register held as the step began.
pub fn push_shown(
    draft: &mut Draft,
    current: &[Option<u64>],
    register: u64,
) -> Result<u64, NoMemory>
    ensures means { IfOk result (λ v. Gives draft.old draft.new v (λ x. variable_shown x
        current.now register)) }
    ensures made { IfOk result (λ v. MadeShown current.now register draft.old draft.new v) }
{
    match current.get(register as usize) {
        Some(given) => match *given {
            Some(value) => Ok(value),
            None => push_old(draft, register),
        },
        None => push_old(draft, register),
    }
}

/// Adds what a variable holds that keeps an offset.
fn push_kept(
    scene: &Scene<'_>,
    lane: &Lane<'_>,
    current: &[Option<u64>],
    draft: &mut Draft,
    hidden: &Hidden,
) -> Result<u64, NoMemory>
    ensures means { IfOk result (λ v. Gives draft.old draft.new v (λ x. hidden_shown scene.now
        lane.now current.now x (hidden_seen hidden.now))) }
    ensures made { IfOk result (λ v. MadeShown current.now (hidden_register scene.now lane.now
        (hidden_seen hidden.now)) draft.old draft.new v) }
{
    let held = place_at(scene.held, hidden.entity as usize);
    push_shown(draft, current, slot_at(held, lane))
}

/// Adds what the variables hold that keep offsets, in order.
pub fn push_offsets(
    scene: &Scene<'_>,
    lane: &Lane<'_>,
    current: &[Option<u64>],
    draft: &mut Draft,
    hidden: &[Hidden],
) -> Result<Items<u64>, NoMemory>
    ensures means { IfOk result (λ values. ShowsHidden scene.now lane.now current.now draft.old
        draft.new (map hidden_seen hidden.now) values) }
    ensures made { IfOk result (λ values. MadeHidden scene.now lane.now current.now (map
        hidden_seen hidden.now) draft.old draft.new values) }
{
    let mut values = Items::new(scene.alloc);
    for one in hidden {
        let value = push_kept(scene, lane, current, draft, one)?;
        values.push(value)?;
    }
    Ok(values)
}
