//! Views as links, each of which goes on with that of its parent, so that what ways have in common is kept once;
//! and ways, which are read link by link.

ghost use Rattle.std.specs.Prelude.{◌≡◌, ◌<◌, ◌∷◌, Some, length, map, option_map, slice_get, IfOk};
ghost use Rattle.dh_ways.specs.Linked.{LinksFollowOneAnother, IsLinkAt, IsParentAt, IsSplit, hidden_kept, views_linked, way_there, ways_linked};

use crate::hiding::append;
use crate::variables::Own;
use crate::ways::Hidden;
use dh_base::{Items, NoMemory};
use dh_tree::ViewMap;
use dh_viewing::SharedMap;
use std::alloc::Global;
use std::marker::Model;

/// A view with what its way has in front of that of its parent.
#[derive(Drop)]
pub(crate) struct Link {
    /// The number of the view's entity, if it has one.
    pub(crate) entity: Option<u32>,
    /// The view.
    pub(crate) view: SharedMap,
    /// Where its own offsets are kept.
    pub(crate) own: Own,
    /// The place of its parent's link, before its own; None of a view of a memory.
    pub(crate) parent: Option<usize>,
    /// The first variable that keeps an offset on the way, if there is one.
    pub(crate) first: Option<Hidden>,
    /// The number of the memory's entity.
    pub(crate) memory: Option<u32>,
    /// The depth of the deepest view that moves on the way, 0 where there is none.
    pub(crate) deepest: u32,
    /// That of the deepest shift.
    pub(crate) shifts: u32,
}

/// The place of the parent of the view at a place; None of a view of a memory.
pub(crate) fn parent_of(links: &[Link], place: usize) -> Option<usize>
    requires linked { LinksFollowOneAnother links.now }
    requires there { place < length links.now }
    ensures { IsParentAt (ways_linked links.now) place result }
{
    links[place].parent
}

/// The entity of the view at a place, if it has one.
pub(crate) fn entity_of(links: &[Link], place: usize) -> Option<u32>
    requires linked { LinksFollowOneAnother links.now }
    requires there { place < length links.now }
    ensures { Some result ≡ option_map (λ l. l.entity) (slice_get (ways_linked links.now) place) }
{
    links[place].entity
}

/// The way of the view at a place.
pub(crate) fn way_at(links: &[Link], place: usize) -> WayRef<'_>
    requires linked { LinksFollowOneAnother links.now }
    requires there { place < length links.now }
    ensures { Some result ≡ way_there (ways_linked links.now) (Some place) }
{
    let link = &links[place];
    WayRef { links, place, link }
}

/// The way behind a link, if there is one.
fn way_behind<'a>(links: &'a [Link], place: usize, link: &Link) -> Option<WayRef<'a>>
    requires { IsLinkAt links.now place link.now }
    ensures { result ≡ way_there (ways_linked links.now) link.now.parent }
{
    match link.parent {
        Some(parent) => Some(way_at(links, parent)),
        None => None,
    }
}

/// The views on the way of the view at a place.
fn views_from(alloc: Global, links: &[Link], place: usize) -> Result<Vec<&ViewMap>, NoMemory>
    requires linked { LinksFollowOneAnother links.now }
    requires there { place < length links.now }
    ensures { IfOk result (λ views. map (λ v. v.now) views.items ≡ views_linked links.now place) }
{
    let mut views = Vec::new(alloc);
    let mut next = Some(place);
    while let Some(at) = next {
        let link = &links[at];
        views.push(link.view.as_map())?;
        next = link.parent;
    }
    Ok(views)
}

/// Where the offsets on that way are kept.
fn hidden_from(alloc: Global, links: &[Link], place: usize) -> Result<Items<Hidden>, NoMemory>
    requires linked { LinksFollowOneAnother links.now }
    requires there { place < length links.now }
    ensures { IfOk result (λ hidden. hidden
        ≡ hidden_kept (way_there (ways_linked links.now) (Some place))) }
{
    let mut hidden = Items::new(alloc);
    let mut next = Some(place);
    while let Some(at) = next {
        let link = &links[at];
        append(&mut hidden, link.own.as_slice())?;
        next = link.parent;
    }
    Ok(hidden)
}

/// The way from a view to its memory. It is read from the links of a table, and takes no memory; a contract sees it
/// with all its views.
#[derive(Drop)]
pub struct WayRef<'a> {
    links: &'a [Link],
    place: usize,
    link: &'a Link,
}

impl<'a> Model for WayRef<'a> {
    ghost use Rattle.dh_ways.specs.Kept.{KeptWay};
    ghost use Rattle.dh_ways.specs.Linked.{IsLinkAt, way_linked, ways_linked};

    ghost Value = { KeptWay };

    ghost view = { λ w. way_linked (ways_linked w.links.now) w.link.now };

    ghost invariant = { λ w. IsLinkAt w.links.now w.place w.link.now };
}

impl<'a> WayRef<'a> {
    /// The view that is named.
    pub fn view(&self) -> &'a ViewMap
        ensures { result.now ≡ self.now.view }
    {
        self.link.view.as_map()
    }

    /// The number of the memory's entity.
    pub fn memory(&self) -> Option<u32>
        ensures { result ≡ self.now.memory }
    {
        self.link.memory
    }

    /// The depth of the deepest view that moves, 0 where there is none.
    pub fn deepest(&self) -> u32
        ensures { result ≡ self.now.deepest }
    {
        self.link.deepest
    }

    /// That of the deepest shift.
    pub fn shifts(&self) -> u32
        ensures { result ≡ self.now.shifts }
    {
        self.link.shifts
    }

    /// The first variable that keeps an offset, if there is one.
    pub fn first_hidden(&self) -> Option<Hidden>
        ensures { result ≡ slice_get self.now.hidden 0 }
    {
        self.link.first
    }

    /// Where the offsets of the view that is named are kept, and the way behind it, if there is one.
    pub fn split(&self) -> (&'a [Hidden], Option<WayRef<'a>>)
        ensures { IsSplit self.now result.0.now result.1 }
    {
        let link = self.link;
        let behind = way_behind(self.links, self.place, link);
        (link.own.as_slice(), behind)
    }

    /// The views on it, the one that is named first.
    ///
    /// # Errors
    ///
    /// `NoMemory`, the one error; no clause tells when.
    pub fn views(&self, alloc: Global) -> Result<Vec<&'a ViewMap>, NoMemory>
        ensures { IfOk result (λ views. map (λ v. v.now) views.items
            ≡ self.now.view ∷ self.now.behind) }
    {
        views_from(alloc, self.links, self.place)
    }

    /// Where their offsets are kept, in the same order.
    ///
    /// # Errors
    ///
    /// `NoMemory`, the one error; no clause tells when.
    pub fn hidden(&self, alloc: Global) -> Result<Items<Hidden>, NoMemory>
        ensures { IfOk result (λ hidden. hidden ≡ self.now.hidden) }
    {
        hidden_from(alloc, self.links, self.place)
    }
}
