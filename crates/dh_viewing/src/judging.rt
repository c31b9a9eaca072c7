//! All views of a program together: what each is, whether it keeps the rule, and the first breach.

ghost use Rattle.std.specs.Prelude.{◌≡◌, ◌&&◌, option_map, IfOk, OnOk};
ghost use Rattle.std.specs.Option.{is_some};
ghost use Rattle.dh_tree.specs.Memories.{table_of};
ghost use Rattle.dh_tree.specs.Seen.{program_seen};
ghost use Rattle.dh_tree.specs.ViewBreaches.{dims_through};
ghost use Rattle.dh_tree.specs.Views.{view_in};
ghost use Rattle.dh_viewing.specs.Finding.{kept_shape_at, kept_through, shape_lent, viewing_found, with_all_kept, with_kept_view};
ghost use Rattle.dh_viewing.specs.Judged as definitions;
ghost use Rattle.dh_viewing.specs.Judged.{AreJudged, AreKeptApart, JudgesViews};

use crate::collecting::{DeclaredView, found_in, map_to, push_map, shape_of_memory};
use crate::declaring::declares_view;
use crate::factors::{keep_all, keep_found};
use crate::keeping::shape_keeps;
use crate::placing::ViewTable;
use crate::tables::SharedViews;
use dh_base::NoMemory;
use dh_tree::{Breach, Dim, MemEntry, Shape, Typed, ViewMap};
use std::alloc::Global;
use std::marker::Model;

/// The views of a program: all, and those that keep the rules, and of which all on the way to their memory do.
/// A contract sees both as lists.
#[derive(Drop)]
pub struct JudgedViews {
    all: SharedViews,
    // those that keep the rules, where a rule is broken; else they are all
    apart: Option<ViewTable>,
}

impl Model for JudgedViews {
    ghost use Rattle.dh_viewing.specs.Judged.{ViewsJudged, kept_or};

    ghost Value = { ViewsJudged };

    ghost view = { λ v. record { all = v.all; kept = kept_or v.all v.apart } };
}

impl JudgedViews {
    /// Whether an entity is a view.
    pub fn has_view(&self, entity: Option<u32>) -> bool
        ensures { result ≡ is_some (view_in self.now.all entity) }
    {
        self.all.get(entity).is_some()
    }

    /// The dimensions of the view that an entity is, if it is one that keeps the rules.
    pub fn kept_dims(&self, entity: Option<u32>) -> Option<&[Dim]>
        ensures { option_map (λ ds. ds.now) result ≡ dims_through (view_in self.now.kept entity) }
    {
        match &self.apart {
            Some(kept) => dims_viewed(kept.get(entity)),
            None => dims_viewed(self.all.get(entity)),
        }
    }
}

/// The dimensions of a view, if there is one.
fn dims_viewed(view: Option<&ViewMap>) -> Option<&[Dim]>
    ensures { option_map (λ ds. ds.now) result ≡ dims_through (option_map (λ v. v.now) view.entry) }
{
    match view {
        Some(view) => Some(view.shape.dims.as_slice()),
        None => None,
    }
}

/// Whether none of these memories has a shape that breaks a rule.
fn entries_keep(entries: &[MemEntry]) -> bool
    ensures { result ≡ definitions.entries_keep entries.now }
{
    for entry in entries {
        if !shape_keeps(&entry.shape) {
            return false;
        }
    }
    true
}

/// Whether it is told at once that all views keep the rules: nothing is broken by them, and none of the memories.
fn keeps_all(typed: &Typed, is_unbroken: bool) -> bool
    ensures { result
        ≡ (is_unbroken && definitions.entries_keep (table_of (program_seen typed.now))) }
{
    is_unbroken && entries_keep(typed.memories().as_slice())
}

/// The shape of a memory, where it keeps the rules, or else of a view.
fn kept_shape<'a>(memory: Option<&'a Shape>, view: Option<&'a ViewMap>) -> Option<&'a Shape>
    ensures { option_map (λ s. s.now) result ≡ shape_lent memory.entry view.entry }
{
    match memory {
        Some(shape) => {
            if shape_keeps(shape) {
                Some(shape)
            } else {
                None
            }
        }
        None => match view {
            Some(view) => Some(&view.shape),
            None => None,
        },
    }
}

/// That of the memory, or else of the view, that an entity is.
fn kept_shape_of<'a>(
    typed: &'a Typed,
    kept: &'a ViewTable,
    entity: Option<u32>,
) -> Option<&'a Shape>
    ensures { option_map (λ s. s.now) result ≡ kept_shape_at typed.now kept.now entity }
{
    kept_shape(shape_of_memory(typed, entity), kept.get(entity))
}

/// A view whose parent has this shape, where its factors and brackets keep the rule.
fn kept_map(
    alloc: Global,
    found: &DeclaredView<'_>,
    parent: Option<&Shape>,
) -> Result<Option<ViewMap>, NoMemory>
    ensures { IfOk result (λ m. m
        ≡ kept_through (viewing_found found.now) (option_map (λ s. s.now) parent.entry)) }
{
    let Some(parent) = parent else {
        return Ok(None);
    };
    let mut breach = None;
    keep_found(&mut breach, found, parent);
    match breach {
        Some(_) => Ok(None),
        None => Ok(Some(map_to(alloc, found.form, parent)?)),
    }
}

/// Adds a view behind others, where it keeps the rules.
fn push_kept(
    alloc: Global,
    typed: &Typed,
    kept: &mut ViewTable,
    found: &DeclaredView<'_>,
) -> Result<(), NoMemory>
    ensures { OnOk result (kept.new ≡ with_kept_view typed.now kept.old found.now) }
{
    let is = kept_map(
        alloc,
        found,
        kept_shape_of(typed, kept, found.parent.entity),
    )?;
    push_map(kept, found.name.entity, is)
}

/// Those of these views that keep the rules, behind others.
fn push_all_kept(
    alloc: Global,
    typed: &Typed,
    kept: &mut ViewTable,
    found: &[DeclaredView<'_>],
) -> Result<(), NoMemory>
    ensures { OnOk result (kept.new ≡ with_all_kept typed.now kept.old found.now) }
{
    for view in found {
        push_kept(alloc, typed, kept, view)?;
    }
    Ok(())
}

/// Those of these views that keep the rules, where they are not all of them: no table is made where nothing is broken.
fn kept_apart(
    alloc: Global,
    typed: &Typed,
    is_unbroken: bool,
    found: &[DeclaredView<'_>],
) -> Result<Option<ViewTable>, NoMemory>
    ensures { IfOk result (λ apart. AreKeptApart typed.now is_unbroken found.now apart) }
{
    if keeps_all(typed, is_unbroken) {
        return Ok(None);
    }
    let mut kept = ViewTable::with_room(alloc, found.len())?;
    push_all_kept(alloc, typed, &mut kept, found)?;
    Ok(Some(kept))
}

/// The views of a program, and which of them keep the rules; and keeps the breach of the rule on factors and
/// brackets that stands first, beside what was kept before.
fn judge_declared(
    alloc: Global,
    typed: &Typed,
    kept: &mut Option<Breach>,
) -> Result<JudgedViews, NoMemory>
    ensures { IfOk result
        (λ judged. AreJudged (program_seen typed.now) judged kept.old kept.new) }
{
    let found = found_in(alloc, typed)?;
    let views = found.as_slice();
    let entities = typed.tree().entities.len();
    let mut all = SharedViews::with_room(alloc, found.len(), entities)?;
    keep_all(alloc, typed, kept, &mut all, views)?;
    let apart = kept_apart(alloc, typed, kept.is_none(), views)?;
    Ok(JudgedViews { all, apart })
}

/// Tells the views of a program, and which of them keep the rules, and keeps the breach of the rule on
/// factors and brackets that stands first, beside what was kept before. Tells nothing where the program has
/// no view, and takes no memory there. Linear in the source.
///
/// # Errors
///
/// `NoMemory`, of a program that declares a view alone; then what was kept stays as it was.
pub fn judge_views(
    alloc: Global,
    typed: &Typed,
    kept: &mut Option<Breach>,
) -> Result<Option<JudgedViews>, NoMemory>
    ensures { JudgesViews (program_seen typed.now) result kept.old kept.new }
{
    if declares_view(typed) {
        let mut least = *kept;
        let Ok(judged) = judge_declared(alloc, typed, &mut least) else {
            return Err(NoMemory);
        };
        *kept = least;
        Ok(Some(judged))
    } else {
        Ok(None)
    }
}
