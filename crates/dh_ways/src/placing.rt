//! The ways of views, each of which is found by the view's entity without a search.

ghost use Rattle.std.specs.Prelude.{◌≡◌, ◌<◌, [], ◌∷◌, ◌++◌, if◌then◌else◌, is_ok, length, map, option_map, slice_get, Some, IfOk, OnOk};
ghost use Rattle.dh_meaning.specs.Ways.{way_in};
ghost use Rattle.dh_ways.specs.Linked.{LinksFollowOneAnother, CanFollow, IsParentAt, led_by, way_there, ways_linked, with_link};
ghost use Rattle.dh_ways.specs.Placed.{AreLinkPlaces, FindsPlace, PlacesNextLink, place_found};
ghost use Rattle.dh_ways.specs.Seen.{led_seen, way_seen};

use crate::linking::{Link, WayRef, entity_of, parent_of, way_at};
use dh_base::{Items, NoMemory};
use dh_viewing::{make_room, place_at};
use std::alloc::Global;
use std::marker::Model;

/// Notes the place of a view, where its entity is no view yet: a name that is declared twice would stand
/// for its first view.
fn note(places: &mut [Option<usize>], entity: usize, place: usize)
    requires { entity < length places.now }
    ensures { PlacesNextLink entity place places.old places.new }
{
    if places[entity].is_none() {
        places[entity] = Some(place);
    }
}

/// Adds a view that is this entity behind others.
fn add_entity(
    links: &mut Items<Link>,
    places: &mut Vec<Option<usize>>,
    entity: usize,
    link: Link,
) -> Result<(), NoMemory>
    requires small { entity < 4294967296 }
    requires placed { AreLinkPlaces links.now places.now.items }
    requires entity { link.entity ≡ Some entity }
    ensures placed { AreLinkPlaces links.new places.new.items }
    ensures added { links.new ≡ (if is_ok result then links.old ++ link ∷ [] else links.old) }
{
    let place = links.len();
    make_room(places, entity)?;
    links.push(link)?;
    note(places.as_mut_slice(), entity, place);
    Ok(())
}

/// Adds a view behind others.
fn add(links: &mut Items<Link>, places: &mut Vec<Option<usize>>, link: Link) -> Result<(), NoMemory>
    requires placed { AreLinkPlaces links.now places.now.items }
    requires linked { LinksFollowOneAnother links.now }
    requires follows { CanFollow (ways_linked links.now) link }
    ensures placed { AreLinkPlaces links.new places.new.items }
    ensures linked { LinksFollowOneAnother links.new }
    ensures added { OnOk result (ways_linked links.new ≡ with_link (ways_linked links.old) link) }
{
    let entity = link.entity;
    match entity {
        Some(entity) => add_entity(links, places, entity as usize, link),
        None => links.push(link),
    }
}

/// Views with their ways in an order, each of which is found by its entity without a search. Of each view it keeps
/// what its way has in front of that of its parent. A contract sees it as a list of views with whole ways.
#[derive(Drop)]
pub struct WayTable {
    links: Items<Link>,
    // by the number of an entity the place of its view, of each entity that is one
    places: Vec<Option<usize>>,
}

impl Model for WayTable {
    ghost use Rattle.std.specs.Prelude.{List};
    ghost use Rattle.dh_ways.specs.Kept.{KeptLed};
    ghost use Rattle.dh_ways.specs.Linked.{LinksFollowOneAnother, ways_linked};
    ghost use Rattle.dh_ways.specs.Placed.{AreLinkPlaces};

    ghost Value = { List KeptLed };

    ghost view = { λ t. ways_linked t.links };

    ghost invariant = { λ t. AreLinkPlaces t.links t.places.items × LinksFollowOneAnother t.links };
}

impl WayTable {
    /// No view, with room for so many among so many entities.
    pub(crate) fn with_room(
        alloc: Global,
        count: usize,
        entities: usize,
    ) -> Result<WayTable, NoMemory>
        ensures { IfOk result (λ table. table ≡ []) }
    {
        let links = Items::with_room(alloc, count)?;
        let places = Vec::with_capacity(alloc, entities)?;
        Ok(WayTable { links, places })
    }

    /// Adds a view behind the others.
    pub(crate) fn push(&mut self, link: Link) -> Result<(), NoMemory>
        requires { CanFollow self.old link }
        ensures { OnOk result (self.new ≡ self.old ++ led_by self.old link ∷ []) }
    {
        add(&mut self.links, &mut self.places, link)
    }

    /// How many views there are.
    pub fn len(&self) -> usize
        ensures { result ≡ length self.now }
    {
        self.links.len()
    }

    /// The place of the view that an entity is, if it is one of these.
    pub fn place_of(&self, entity: Option<u32>) -> Option<usize>
        ensures place { result ≡ place_found self.now entity }
        ensures finds { FindsPlace self.now entity result }
    {
        place_at(self.places.as_slice(), entity)
    }

    /// The place of the parent of the view at a place, before that one; None of a view of a memory.
    pub fn parent_at(&self, place: usize) -> Option<usize>
        requires { place < length self.now }
        ensures { IsParentAt self.now place result }
    {
        parent_of(self.links.as_slice(), place)
    }

    /// The entity of the view at a place, if it has one.
    pub fn entity_at(&self, place: usize) -> Option<u32>
        requires { place < length self.now }
        ensures { Some result ≡ option_map (λ l. l.entity) (slice_get self.now place) }
    {
        entity_of(self.links.as_slice(), place)
    }

    /// The way of the view at a place.
    pub fn at(&self, place: usize) -> WayRef<'_>
        requires { place < length self.now }
        ensures { Some result ≡ way_there self.now (Some place) }
    {
        way_at(self.links.as_slice(), place)
    }

    /// The way of the view that an entity is, if it is one of these.
    pub fn get(&self, entity: Option<u32>) -> Option<WayRef<'_>>
        ensures { option_map way_seen result ≡ way_in (map led_seen self.now) entity }
    {
        match self.place_of(entity) {
            Some(place) => Some(self.at(place)),
            None => None,
        }
    }
}
