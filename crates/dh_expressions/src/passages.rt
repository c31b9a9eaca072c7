//! The views on the way of an access to its memory, with the values of their offsets.

ghost use Rattle.std.specs.Prelude.{◌≡◌, ◌≤◌, ◌++◌, ◌∷◌, [], length, map, min, take, drop, IfOk, OnOk};
ghost use Rattle.dh_ways.specs.Seen.{way_seen};
ghost use Rattle.dh_expressions.specs.Evaluated.{PassesWay, ShowsSteps};
ghost use Rattle.dh_expressions.specs.MadeTerms.{MadePassing, MadeSteps};
ghost use Rattle.dh_expressions.specs.Passing.{AddsView, AddsViews, way_steps, with_steps};

use crate::drafts::Draft;
use crate::elements::Aim;
use crate::naming::{view_behind, view_number, way_in};
use crate::scenes::{Lane, Scene};
use crate::variables::push_offsets;
use dh_base::{Items, NoMemory};
use dh_code::offsets_taken;
use dh_plan::ReachStep;
use dh_tree::{Ref, ViewMap};
use dh_ways::WayRef;
use std::alloc::Global;

/// So many, or all that there are.
fn within(values: &[u64], count: usize) -> usize
    ensures { result ≡ min count (length values.now) }
{
    count.min(values.len())
}

/// The first so many values.
fn front(values: &[u64], count: usize) -> &[u64]
    requires { count ≤ length values.now }
    ensures { result.now ≡ take count values.now }
{
    &values[..count]
}

/// Those behind so many.
fn behind(values: &[u64], count: usize) -> &[u64]
    requires { count ≤ length values.now }
    ensures { result.now ≡ drop count values.now }
{
    &values[count..]
}

/// Adds a view of this number with the values of its offsets.
fn add_step(
    alloc: Global,
    steps: &mut Items<ReachStep>,
    number: u32,
    own: &[u64],
) -> Result<(), NoMemory>
    ensures { OnOk result (steps.new ≡ steps.old ++ record { view = number; offsets = own.now }
        ∷ []) }
{
    let offsets = Items::from_vec(Vec::from_slice(alloc, own)?);
    steps.push(ReachStep {
        view: number,
        offsets,
    })
}

/// Adds a view of this number, whose offsets are the first of these values. Gives how many.
fn add_view(
    alloc: Global,
    steps: &mut Items<ReachStep>,
    number: u32,
    link: &ViewMap,
    rest: &[u64],
) -> Result<usize, NoMemory>
    ensures { IfOk result (λ n. AddsView steps.old steps.new number link.now rest.now n) }
{
    let most = offsets_taken(link);
    let count = within(rest, most);
    let own = front(rest, count);
    add_step(alloc, steps, number, own)?;
    Ok(count)
}

/// Adds views of which each is behind the one before it and the first has this number, with the
/// values of their offsets in the same order.
fn add_views(
    scene: &Scene<'_>,
    steps: &mut Items<ReachStep>,
    first: u32,
    links: &[&ViewMap],
    values: &[u64],
) -> Result<(), NoMemory>
    ensures { OnOk result
        (AddsViews scene.now first (map (λ v. v.now) links.now) values.now steps.old steps.new) }
{
    let mut rest = values;
    let mut number = first;
    for i in 0..links.len() {
        let link = links[i];
        let count = add_view(scene.alloc, steps, number, link, rest)?;
        rest = behind(rest, count);
        number = view_behind(scene, number);
    }
    Ok(())
}

/// The views on a way, of which the first has this number, with the values of their offsets.
fn steps_on(
    scene: &Scene<'_>,
    first: u32,
    way: &WayRef<'_>,
    values: &[u64],
) -> Result<Items<ReachStep>, NoMemory>
    ensures { IfOk result
        (λ steps. steps ≡ way_steps scene.now first (way_seen way.now) values.now) }
{
    let links = way.views(scene.alloc)?;
    let mut steps = Items::new(scene.alloc);
    add_views(scene, &mut steps, first, links.as_slice(), values)?;
    Ok(steps)
}

/// Adds what the variables hold that keep the offsets on a way. Gives its views with them.
fn push_steps(
    scene: &Scene<'_>,
    lane: &Lane<'_>,
    current: &[Option<u64>],
    draft: &mut Draft,
    first: u32,
    way: &WayRef<'_>,
) -> Result<Items<ReachStep>, NoMemory>
    ensures means { IfOk result (λ steps. ShowsSteps scene.now lane.now current.now draft.old
        draft.new first (way_seen way.now) steps) }
    ensures made { IfOk result (λ steps. MadeSteps scene.now lane.now current.now draft.old
        draft.new first (way_seen way.now) steps) }
{
    let hidden = way.hidden(scene.alloc)?;
    let values = push_offsets(scene, lane, current, draft, hidden.as_slice())?;
    steps_on(scene, first, way, values.as_slice())
}

/// Has an access go through these views.
fn set_steps(aim: &mut Aim, steps: Items<ReachStep>)
    ensures { aim.new ≡ with_steps aim.old steps }
{
    aim.steps = steps;
}

/// Has an access go through the views on the way of what a name stands for, where that is a view.
pub fn push_way(
    scene: &Scene<'_>,
    lane: &Lane<'_>,
    current: &[Option<u64>],
    draft: &mut Draft,
    of: &Ref,
    aim: &mut Aim,
) -> Result<(), NoMemory>
    ensures means { OnOk result (PassesWay scene.now lane.now current.now draft.old draft.new
        of.now aim.old aim.new) }
    ensures made { OnOk result (MadePassing scene.now lane.now current.now draft.old draft.new
        of.now aim.old aim.new) }
{
    match way_in(scene, of) {
        Some(way) => {
            let first = view_number(scene, of);
            let steps = push_steps(scene, lane, current, draft, first, &way)?;
            set_steps(aim, steps);
            Ok(())
        }
        None => Ok(()),
    }
}
