//! Views, each of which is found by its entity without a search, as those of `ViewTable` are; but those that are the same
//! are kept once, so that few of them take memory.

ghost use Rattle.std.specs.Prelude.{◌≡◌, ◌<◌, [], ◌∷◌, ◌++◌, if◌then◌else◌, is_ok, option_map, Some, IfOk, OnOk};
ghost use Rattle.dh_tree.specs.Views.{view_in};
ghost use Rattle.dh_viewing.specs.Placed.{AreViewPlaces, map_at};
ghost use Rattle.dh_viewing.specs.Tables.{all_shared, shared_placed, shared_seen};

use crate::placing::{make_room, note, place_at};
use crate::sharing::SharedMap;
use dh_base::{Items, NoMemory};
use dh_tree::ViewMap;
use std::alloc::Global;
use std::marker::Model;

/// A view with the number of its entity.
#[derive(Drop)]
pub(crate) struct SharedView {
    pub(crate) entity: Option<u32>,
    pub(crate) is: SharedMap,
}

/// Adds a view that is this entity behind others.
fn add_entity(
    views: &mut Items<SharedView>,
    places: &mut Vec<Option<usize>>,
    entity: usize,
    view: SharedView,
) -> Result<(), NoMemory>
    requires small { entity < 4294967296 }
    requires placed { AreViewPlaces (all_shared views.now) places.now.items }
    requires entity { view.entity ≡ Some entity }
    ensures placed { AreViewPlaces (all_shared views.new) places.new.items }
    ensures added { views.new ≡ (if is_ok result then views.old ++ view ∷ [] else views.old) }
{
    let place = views.len();
    make_room(places, entity)?;
    views.push(view)?;
    note(places.as_mut_slice(), entity, place);
    Ok(())
}

/// Adds a view behind others.
fn add(
    views: &mut Items<SharedView>,
    places: &mut Vec<Option<usize>>,
    view: SharedView,
) -> Result<(), NoMemory>
    requires { AreViewPlaces (all_shared views.now) places.now.items }
    ensures placed { AreViewPlaces (all_shared views.new) places.new.items }
    ensures added { views.new ≡ (if is_ok result then views.old ++ view ∷ [] else views.old) }
{
    let entity = view.entity;
    match entity {
        Some(entity) => add_entity(views, places, entity as usize, view),
        None => views.push(view),
    }
}

/// The one at a place.
fn shared_at(views: &[SharedView], place: Option<usize>) -> Option<&SharedView>
    ensures { option_map (λ o. o.now) result ≡ shared_placed views.now place }
{
    let Some(place) = place else {
        return None;
    };
    match views.get(place) {
        Some(view) => Some(view),
        None => None,
    }
}

/// The view at a place.
fn view_at(views: &[SharedView], place: Option<usize>) -> Option<&ViewMap>
    ensures { option_map (λ v. v.now) result ≡ map_at (all_shared views.now) place }
{
    match shared_at(views, place) {
        Some(view) => Some(view.is.as_map()),
        None => None,
    }
}

/// The view that an entity is.
fn view_of<'a>(
    views: &'a [SharedView],
    places: &[Option<usize>],
    entity: Option<u32>,
) -> Option<&'a ViewMap>
    requires { AreViewPlaces (all_shared views.now) places.now }
    ensures { option_map (λ v. v.now) result ≡ view_in (all_shared views.now) entity }
{
    view_at(views, place_at(places, entity))
}

/// Views in an order, each of which is found by its entity without a search. A contract sees them as a list of views.
#[derive(Drop)]
pub(crate) struct SharedViews {
    views: Items<SharedView>,
    // by the number of an entity the place of its view, of each entity that is one
    places: Vec<Option<usize>>,
}

impl Model for SharedViews {
    ghost use Rattle.std.specs.Prelude.{List};
    ghost use Rattle.dh_tree.specs.declared.viewing.Viewed.{Viewed};
    ghost use Rattle.dh_viewing.specs.Placed.{AreViewPlaces};
    ghost use Rattle.dh_viewing.specs.Tables.{all_shared};

    ghost Value = { List Viewed };

    ghost view = { λ t. all_shared t.views };

    ghost invariant = { λ t. AreViewPlaces (all_shared t.views) t.places.items };
}

impl SharedViews {
    /// No view, with room for so many among so many entities.
    pub(crate) fn with_room(
        alloc: Global,
        count: usize,
        entities: usize,
    ) -> Result<SharedViews, NoMemory>
        ensures { IfOk result (λ table. table ≡ []) }
    {
        let views = Items::with_room(alloc, count)?;
        let places = Vec::with_capacity(alloc, entities)?;
        Ok(SharedViews { views, places })
    }

    /// Adds a view behind the others.
    pub(crate) fn push(&mut self, view: SharedView) -> Result<(), NoMemory>
        ensures { OnOk result (self.new ≡ self.old ++ shared_seen view ∷ []) }
    {
        add(&mut self.views, &mut self.places, view)
    }

    /// The view that an entity is, if it is one of these.
    pub(crate) fn get(&self, entity: Option<u32>) -> Option<&ViewMap>
        ensures { option_map (λ v. v.now) result ≡ view_in self.now entity }
    {
        view_of(self.views.as_slice(), self.places.as_slice(), entity)
    }
}
