//! Views, each of which is found by its entity without a search.

ghost use Rattle.std.specs.Prelude.{◌≡◌, ◌<◌, [], ◌∷◌, ◌++◌, length, option_map, IfOk, OnOk};
ghost use Rattle.dh_tree.specs.Views.{view_in};
ghost use Rattle.dh_viewing.specs.Placed.{AreViewPlaces, PlacesNext, TellTheSame, map_at, placed_at};

use dh_base::{Items, NoMemory};
use dh_tree::{ViewMap, Viewed};
use std::alloc::Global;
use std::marker::Model;

/// Makes room for an entity, of which nothing is told yet.
///
/// # Errors
///
/// `NoMemory`, the one error; no clause tells when.
pub fn make_room(places: &mut Vec<Option<usize>>, entity: usize) -> Result<(), NoMemory>
    requires { entity < 4294967296 }
    ensures long { OnOk result (entity < length places.new.items) }
    ensures same { TellTheSame places.old.items places.new.items }
{
    let lacking = (entity + 1).saturating_sub(places.len());
    for _ in 0..lacking {
        places.push(None)?;
    }
    Ok(())
}

/// Notes the place of a view, where its entity is no view yet: a name that is declared twice would stand
/// for its first view.
pub(crate) fn note(places: &mut [Option<usize>], entity: usize, place: usize)
    requires { entity < length places.now }
    ensures { PlacesNext entity place places.old places.new }
{
    if places[entity].is_none() {
        places[entity] = Some(place);
    }
}

/// Adds a view that is this entity behind others.
fn add_entity(
    views: &mut Items<Viewed>,
    places: &mut Vec<Option<usize>>,
    entity: usize,
    view: Viewed,
) -> Result<(), NoMemory>
    requires small { entity < 4294967296 }
    requires placed { AreViewPlaces views.now places.now.items }
    requires entity { view.entity ≡ Some entity }
    ensures placed { AreViewPlaces views.new places.new.items }
    ensures added { OnOk result (views.new ≡ views.old ++ view ∷ []) }
{
    let place = views.len();
    make_room(places, entity)?;
    views.push(view)?;
    note(places.as_mut_slice(), entity, place);
    Ok(())
}

/// Adds a view behind others.
fn add(
    views: &mut Items<Viewed>,
    places: &mut Vec<Option<usize>>,
    view: Viewed,
) -> Result<(), NoMemory>
    requires { AreViewPlaces views.now places.now.items }
    ensures placed { AreViewPlaces views.new places.new.items }
    ensures added { OnOk result (views.new ≡ views.old ++ view ∷ []) }
{
    let entity = view.entity;
    match entity {
        Some(entity) => add_entity(views, places, entity as usize, view),
        None => views.push(view),
    }
}

/// The place that is told of an entity.
pub fn place_at(places: &[Option<usize>], entity: Option<u32>) -> Option<usize>
    ensures { result ≡ placed_at places.now entity }
{
    let Some(entity) = entity else {
        return None;
    };
    let entity = entity as usize;
    if entity < places.len() {
        places[entity]
    } else {
        None
    }
}

/// The view at a place.
fn view_at(views: &[Viewed], place: Option<usize>) -> Option<&ViewMap>
    ensures { option_map (λ v. v.now) result ≡ map_at views.now place }
{
    let Some(place) = place else {
        return None;
    };
    match views.get(place) {
        Some(view) => Some(&view.is),
        None => None,
    }
}

/// The view that an entity is.
fn view_of<'a>(
    views: &'a [Viewed],
    places: &[Option<usize>],
    entity: Option<u32>,
) -> Option<&'a ViewMap>
    requires { AreViewPlaces views.now places.now }
    ensures { option_map (λ v. v.now) result ≡ view_in views.now entity }
{
    view_at(views, place_at(places, entity))
}

/// Views in an order, each of which is found by its entity without a search. A contract sees them as a list.
#[derive(Drop)]
pub(crate) struct ViewTable {
    views: Items<Viewed>,
    // by the number of an entity the place of its view, of each entity that is one
    places: Vec<Option<usize>>,
}

impl Model for ViewTable {
    ghost use Rattle.std.specs.Prelude.{List};
    ghost use Rattle.dh_tree.specs.declared.viewing.Viewed.{Viewed};
    ghost use Rattle.dh_viewing.specs.Placed.{AreViewPlaces};

    ghost Value = { List Viewed };

    ghost view = { λ t. t.views };

    ghost invariant = { λ t. AreViewPlaces t.views t.places.items };
}

impl ViewTable {
    /// No view, with room for so many.
    ///
    /// # Errors
    ///
    /// `NoMemory`, the one error; no clause tells when.
    pub(crate) fn with_room(alloc: Global, count: usize) -> Result<ViewTable, NoMemory>
        ensures { IfOk result (λ table. table ≡ []) }
    {
        let views = Items::with_room(alloc, count)?;
        Ok(ViewTable {
            views,
            places: Vec::new(alloc),
        })
    }

    /// Adds a view behind the others.
    ///
    /// # Errors
    ///
    /// `NoMemory`, the one error; no clause tells when.
    pub(crate) fn push(&mut self, view: Viewed) -> Result<(), NoMemory>
        ensures { OnOk result (self.new ≡ self.old ++ view ∷ []) }
    {
        add(&mut self.views, &mut self.places, view)
    }

    /// The view that an entity is, if it is one of these.
    pub(crate) fn get(&self, entity: Option<u32>) -> Option<&ViewMap>
        ensures { option_map (λ v. v.now) result ≡ view_in self.now entity }
    {
        view_of(self.views.as_slice(), self.places.as_slice(), entity)
    }
}
