//! The ways of a program's views, each in front of that of its parent.

ghost use Rattle.std.specs.Prelude.{◌≡◌, ◌+◌, ◌<◌, ◌++◌, List, Some, None, length, map, max, slice_get, IfOk, OnOk};
ghost use Rattle.dh_tree.specs.Memories.{memories_of};
ghost use Rattle.dh_tree.specs.Seen.{view_plan, program_seen};
ghost use Rattle.dh_tree.specs.ViewOffsets as offsets;
ghost use Rattle.dh_tree.specs.ViewOffsets.{offsets_of};
ghost use Rattle.dh_meaning.specs.Ways as definitions;
ghost use Rattle.dh_meaning.specs.Ways.{behind_all, led_after, led_of, ways_of};
ghost use Rattle.dh_ways.specs.CutStands.{HasFewWays};
ghost use Rattle.dh_ways.specs.Kept.{KeptLed};
ghost use Rattle.dh_ways.specs.Traced.{AddsWay, AddsWays, AreWaysOf, IsFirstOr, IsLinkBehind, IsLinkOf, IsLinkAddingViews, LinksBehind, MayFollow, led_in, linked_on};
ghost use Rattle.dh_ways.specs.Seen.{led_seen};
ghost use Rattle.dh_ways.specs.Stands.{stand_seen, standing_seen};

use crate::hiding::{append, entity_behind, first_hidden, own_hidden};
use crate::linking::{Link, WayRef};
use crate::placing::WayTable;
use crate::standing::{Stood, standing_in};
use crate::variables::Own;
use crate::ways::Hidden;
use dh_base::{Items, NoMemory};
use dh_tree::{Shape, Typed, ViewForm};
use dh_viewing::{LastMaps, SharedMap, moves, shape_of_memory};
use std::alloc::Global;

/// Whether a view is a shift.
fn is_shift(form: &ViewForm) -> bool
    ensures { result ≡ offsets.is_shift_view (view_plan form.now) }
{
    match form {
        ViewForm::Shrink { .. } => false,
        ViewForm::Split { .. } => false,
        ViewForm::Suffix { .. } => false,
        ViewForm::Shift { .. } => true,
    }
}

/// A depth where something is so, and 0 where it is not.
fn depth_where(is_so: bool, depth: u32) -> u32
    ensures { result ≡ definitions.depth_where is_so depth }
{
    if is_so { depth } else { 0 }
}

/// The greater one of two depths.
fn deeper(one: u32, other: u32) -> u32
    ensures { result ≡ max one other }
{
    one.max(other)
}

/// The first of these variables, if there is one.
fn first_of(hidden: &[Hidden]) -> Option<Hidden>
    ensures { result ≡ slice_get hidden.now 0 }
{
    match hidden.first() {
        Some(one) => Some(*one),
        None => None,
    }
}

/// The first of these variables and of others behind them, of which the first is known.
fn first_or(hidden: &[Hidden], behind: Option<Hidden>) -> Option<Hidden>
    ensures { IsFirstOr hidden.now behind result }
{
    match first_of(hidden) {
        Some(one) => Some(one),
        None => behind,
    }
}

/// The link of a view of a memory, whose offsets are kept in these variables.
fn link_from(view: &Stood<'_>, made: SharedMap, own: Own) -> Link
    ensures { (before : List KeptLed) → IsLinkOf before (standing_seen view.now) own made None result }
{
    let first = first_or(own.as_slice(), None);
    let deepest = depth_where(moves(view.form), view.depth);
    let shifts = depth_where(is_shift(view.form), view.depth);
    Link {
        entity: view.name.entity,
        view: made,
        own,
        parent: None,
        first,
        memory: view.parent.entity,
        deepest,
        shifts,
    }
}

/// The link of a view of one that has this way and stands at this place.
fn link_behind(
    view: &Stood<'_>,
    made: SharedMap,
    own: Own,
    parent: &WayRef<'_>,
    place: usize,
) -> Link
    ensures { IsLinkBehind place parent.now (standing_seen view.now) own made result }
{
    let first = first_or(own.as_slice(), parent.first_hidden());
    let own_depth = depth_where(moves(view.form), view.depth);
    let own_shift = depth_where(is_shift(view.form), view.depth);
    let deepest = deeper(own_depth, parent.deepest());
    let shifts = deeper(own_shift, parent.shifts());
    let ends_at = parent.memory();
    Link {
        entity: view.name.entity,
        view: made,
        own,
        parent: Some(place),
        first,
        memory: ends_at,
        deepest,
        shifts,
    }
}

/// The link of a view of a memory of this shape.
fn lead_memory(
    alloc: Global,
    maps: &mut LastMaps,
    view: &Stood<'_>,
    own: Own,
    shape: &Shape,
) -> Result<Option<Link>, NoMemory>
    ensures { IfOk result (λ link. (before : List KeptLed) → IsLinkAddingViews before (standing_seen view.now)
        own (λ first. led_of first (standing_seen view.now) (Some shape.now) None) link) }
{
    let made = maps.map_to(alloc, view.form, shape)?;
    Ok(Some(link_from(view, made, own)))
}

/// The link of a view of one that has this way and stands at this place.
fn lead_on(
    alloc: Global,
    maps: &mut LastMaps,
    view: &Stood<'_>,
    own: Own,
    parent: &WayRef<'_>,
    place: usize,
) -> Result<Option<Link>, NoMemory>
    ensures { IfOk result
        (λ link. LinksBehind place parent.now (standing_seen view.now) own link) }
{
    let above = parent.view();
    let made = maps.map_to(alloc, view.form, &above.shape)?;
    Ok(Some(link_behind(view, made, own, parent, place)))
}

/// The link of a view of one that is among these; None where its parent is none of them.
fn lead_behind(
    alloc: Global,
    maps: &mut LastMaps,
    ways: &WayTable,
    view: &Stood<'_>,
    own: Own,
) -> Result<Option<Link>, NoMemory>
    ensures { IfOk result (λ link. IsLinkAddingViews ways.now (standing_seen view.now) own
        (led_in (map led_seen ways.now) (standing_seen view.now)) link) }
{
    match ways.place_of(view.parent.entity) {
        Some(place) => {
            let parent = ways.at(place);
            lead_on(alloc, maps, view, own, &parent, place)
        }
        None => Ok(None),
    }
}

/// The link of a view behind these; None where its parent has no shape, as in no typed program.
fn link_of_view(
    alloc: Global,
    typed: &Typed,
    maps: &mut LastMaps,
    ways: &WayTable,
    view: &Stood<'_>,
    own: Own,
) -> Result<Option<Link>, NoMemory>
    ensures { IfOk result (λ link. IsLinkAddingViews ways.now (standing_seen view.now) own
        (λ first. led_after (memories_of (program_seen typed.now)) first (map led_seen ways.now)
        (standing_seen view.now)) link) }
{
    match shape_of_memory(typed, view.parent.entity) {
        Some(shape) => lead_memory(alloc, maps, view, own, shape),
        None => lead_behind(alloc, maps, ways, view, own),
    }
}

/// Adds a view behind others, where it has a link.
fn push_link(ways: &mut WayTable, link: Option<Link>) -> Result<(), NoMemory>
    requires { MayFollow ways.old link }
    ensures { OnOk result (map led_seen ways.new
        ≡ map led_seen ways.old ++ linked_on ways.old link) }
{
    match link {
        Some(link) => ways.push(link),
        None => Ok(()),
    }
}

/// Adds a view behind others, and its variables behind others; they are entities from this one on. Gives the one
/// behind them.
fn push_way(
    alloc: Global,
    typed: &Typed,
    maps: &mut LastMaps,
    ways: &mut WayTable,
    hidden: &mut Items<Hidden>,
    first: u32,
    view: &Stood<'_>,
) -> Result<u32, NoMemory>
    requires few { first + length (offsets_of (stand_seen view.now).form) < 4294967296 }
    ensures { IfOk result (λ next.
        AddsWay typed.now ways.old ways.new hidden.old hidden.new first next view.now) }
{
    let own = own_hidden(alloc, first, view)?;
    append(hidden, own.as_slice())?;
    let next = entity_behind(first, own.len());
    let link = link_of_view(alloc, typed, maps, ways, view, own)?;
    push_link(ways, link)?;
    Ok(next)
}

/// Adds these views behind others, and their variables.
fn push_ways(
    alloc: Global,
    typed: &Typed,
    ways: &mut WayTable,
    hidden: &mut Items<Hidden>,
    first: u32,
    stood: &[Stood<'_>],
) -> Result<(), NoMemory>
    requires few { behind_all first (map standing_seen stood.now) < 4294967296 }
    ensures { OnOk result
        (AddsWays typed.now ways.old ways.new hidden.old hidden.new first stood.now) }
{
    let mut maps = LastMaps::new();
    let mut next = first;
    for view in stood {
        next = push_way(alloc, typed, &mut maps, ways, hidden, next, view)?;
    }
    Ok(())
}

/// The entities among which so many views stand.
fn room_for(typed: &Typed, views: usize) -> usize {
    if views == 0 {
        0
    } else {
        typed.tree().entities.len()
    }
}

/// The ways of a program's views, and the variables that keep their offsets, both in text order.
///
/// # Errors
///
/// `NoMemory`, the one error; no clause tells when.
pub fn ways_and_hidden(alloc: Global, typed: &Typed) -> Result<(WayTable, Items<Hidden>), NoMemory>
    requires few { HasFewWays (program_seen typed.now) }
    ensures { IfOk result (λ made. AreWaysOf (program_seen typed.now) made.0 made.1) }
{
    let stood = standing_in(alloc, typed)?;
    let first = first_hidden(typed);
    let entities = room_for(typed, stood.len());
    let mut ways = WayTable::with_room(alloc, stood.len(), entities)?;
    let mut hidden = Items::new(alloc);
    let views = stood.as_slice();
    push_ways(alloc, typed, &mut ways, &mut hidden, first, views)?;
    Ok((ways, hidden))
}

/// The ways of a program's views, in text order.
///
/// # Errors
///
/// `NoMemory`, the one error; no clause tells when.
pub fn ways_in(alloc: Global, typed: &Typed) -> Result<WayTable, NoMemory>
    requires few { HasFewWays (program_seen typed.now) }
    ensures { IfOk result (λ ways. map led_seen ways ≡ ways_of (program_seen typed.now)) }
{
    let (ways, _hidden) = ways_and_hidden(alloc, typed)?;
    Ok(ways)
}
