//! The rule on the factors and the brackets of views.

ghost use Rattle.std.specs.Prelude.{◌≡◌, [], ◌∷◌, ◌++◌, Some, IfOk, OnOk, option_map, slice_get};
ghost use Rattle.dh_base.specs.declared.rules.Rule.TheVariants as rules;
ghost use Rattle.dh_tree.specs.Kinds.{when};
ghost use Rattle.dh_tree.specs.LeastBreach.{breach, least_of};
ghost use Rattle.dh_tree.specs.Memories.{memories_of};
ghost use Rattle.dh_tree.specs.Seen.{view_plan, program_seen};
ghost use Rattle.dh_tree.specs.ViewFactors as definitions;
ghost use Rattle.dh_tree.specs.ViewFactors.{factors_breaches, plan_breaches, viewing_breaches};
ghost use Rattle.dh_tree.specs.Views.{shape_in};
ghost use Rattle.dh_viewing.specs.Finding.{all_found_breaches, factor_broken_at, factors_paired, found_breaches, map_behind, multiples_breaches, place_or, viewed_as, viewing_found, with_all_found, with_found_view};

use crate::collecting::{DeclaredView, shape_of_memory};
use crate::sharing::{LastMaps, SharedMap};
use crate::tables::{SharedView, SharedViews};
use dh_base::{NoMemory, Place, Rule};
use dh_tree::{Breach, Dim, Expr, Shape, Typed, ViewForm, keep_least};
use std::alloc::Global;

/// The rule on views, where it is broken at a place.
fn keep_if(kept: &mut Option<Breach>, is_broken: bool, place: Place)
    ensures { kept.new ≡ least_of kept.old (when is_broken (breach rules.ViewFactor place ∷ [])) }
{
    if is_broken {
        keep_least(
            kept,
            Breach {
                rule: Rule::ViewFactor,
                place,
            },
        );
    }
}

/// Whether a factor divides a number of banks, or is a multiple of it; 0 does neither.
fn factor_keeps(multiplies: bool, factor: u64, banks: u64) -> bool
    ensures { result ≡ definitions.factor_keeps multiplies factor banks }
{
    if multiplies {
        factor != 0 && banks != 0 && factor % banks == 0
    } else {
        factor != 0 && banks % factor == 0
    }
}

/// The breach of a factor of a dimension, if there is one.
fn keep_factor(
    kept: &mut Option<Breach>,
    multiplies: bool,
    factor: Option<u64>,
    place: Place,
    dim: &Dim,
)
    ensures { kept.new ≡ least_of kept.old (factor_broken_at multiplies factor place dim.now) }
{
    match factor {
        Some(factor) => {
            let is_kept = factor_keeps(multiplies, factor, dim.banks);
            keep_if(kept, !is_kept, place);
        }
        None => {}
    }
}

/// The factor of this number, if there is one.
fn factor_at(factors: &[u64], number: usize) -> Option<u64>
    ensures { result ≡ slice_get factors.now number }
{
    match factors.get(number) {
        Some(factor) => Some(*factor),
        None => None,
    }
}

/// That of a suffix, whose factors stand beside its offsets.
fn multiple_at(by: &[(u64, Expr)], number: usize) -> Option<u64>
    ensures { result ≡ slice_get (factors_paired by.now) number }
{
    match by.get(number) {
        Some(pair) => Some(pair.0),
        None => None,
    }
}

/// The place of this number, or else another.
fn place_at(places: &[Place], number: usize, other: Place) -> Place
    ensures { result ≡ place_or other (slice_get places.now number) }
{
    match places.get(number) {
        Some(place) => *place,
        None => other,
    }
}

/// The breaches of factors, each where it stands and with its dimension.
fn keep_factors(
    kept: &mut Option<Breach>,
    multiplies: bool,
    parent: Place,
    factors: &[u64],
    places: &[Place],
    dims: &[Dim],
)
    ensures { kept.new ≡ least_of kept.old
        (factors_breaches multiplies parent factors.now places.now dims.now) }
{
    for (i, dim) in dims.iter().enumerate() {
        let place = place_at(places, i, parent);
        let factor = factor_at(factors, i);
        keep_factor(kept, multiplies, factor, place, dim);
    }
}

/// Those of a suffix, whose factors are multiples of banks.
fn keep_multiples(
    kept: &mut Option<Breach>,
    parent: Place,
    by: &[(u64, Expr)],
    places: &[Place],
    dims: &[Dim],
)
    ensures { kept.new ≡ least_of kept.old (multiples_breaches parent by.now places.now dims.now) }
{
    for (i, dim) in dims.iter().enumerate() {
        let place = place_at(places, i, parent);
        let factor = multiple_at(by, i);
        keep_factor(kept, true, factor, place, dim);
    }
}

/// Whether a view has one bracket for each of so many dimensions of its parent; of a split there is one.
fn brackets_fit(form: &ViewForm, dims: usize) -> bool
    ensures { result ≡ definitions.brackets_fit (view_plan form.now) dims }
{
    match form {
        ViewForm::Shrink { by, .. } => by.len() == dims,
        ViewForm::Split { by, .. } => by.len() == 1 && dims == 1,
        ViewForm::Suffix { by, .. } => by.len() == dims,
        ViewForm::Shift { by, .. } => by.len() == dims,
    }
}

/// The breaches of a view of what has these dimensions, by its factors.
#[tactic(auto, using(dh_tree::proofs::Leasts::least_append))]
fn keep_view(kept: &mut Option<Breach>, dims: &[Dim], parent: Place, form: &ViewForm)
    ensures { kept.new ≡ least_of kept.old (plan_breaches dims.now parent (view_plan form.now)) }
{
    let is_fit = brackets_fit(form, dims.len());
    keep_if(kept, !is_fit, parent);
    match form {
        ViewForm::Shrink { by, by_place } => {
            let factors = by.as_slice();
            keep_factors(kept, false, parent, factors, by_place.as_slice(), dims);
        }
        ViewForm::Split { by, by_place } => {
            let factors = by.as_slice();
            keep_factors(kept, false, parent, factors, by_place.as_slice(), dims);
        }
        ViewForm::Suffix { by, by_place } => {
            let pairs = by.as_slice();
            keep_multiples(kept, parent, pairs, by_place.as_slice(), dims);
        }
        ViewForm::Shift { .. } => {}
    }
}

/// Those of a view whose parent has this shape.
pub(crate) fn keep_found(kept: &mut Option<Breach>, found: &DeclaredView<'_>, parent: &Shape)
    ensures { kept.new
        ≡ least_of kept.old (viewing_breaches (viewing_found found.now) (Some parent.now)) }
{
    let dims = parent.dims.as_slice();
    keep_view(kept, dims, found.parent.place, found.form);
}

/// The shape of the memory, or else of the view, that an entity is.
fn shape_of<'a>(typed: &'a Typed, views: &'a SharedViews, entity: Option<u32>) -> Option<&'a Shape>
    ensures { option_map (λ s. s.now) result
        ≡ shape_in (memories_of (program_seen typed.now)) views.now entity }
{
    match shape_of_memory(typed, entity) {
        Some(shape) => Some(shape),
        None => match views.get(entity) {
            Some(view) => Some(&view.shape),
            None => None,
        },
    }
}

/// Those of a view behind others, and what it is; one that has no parent, as in no typed program, is none.
fn keep_map(
    alloc: Global,
    typed: &Typed,
    maps: &mut LastMaps,
    kept: &mut Option<Breach>,
    views: &SharedViews,
    found: &DeclaredView<'_>,
) -> Result<Option<SharedMap>, NoMemory>
    ensures breaches { OnOk result
        (kept.new ≡ least_of kept.old (found_breaches typed.now views.now found.now)) }
    ensures map { IfOk result (λ m. m ≡ map_behind typed.now views.now found.now) }
{
    match shape_of(typed, views, found.parent.entity) {
        Some(parent) => {
            keep_found(kept, found, parent);
            Ok(Some(maps.map_to(alloc, found.form, parent)?))
        }
        None => Ok(None),
    }
}

/// Adds the view that an entity is behind others, where there is one.
#[tactic(auto, using(dh_tree::proofs::Collecting::found_none))]
fn push_map(
    views: &mut SharedViews,
    entity: Option<u32>,
    is: Option<SharedMap>,
) -> Result<(), NoMemory>
    ensures { OnOk result (views.new ≡ views.old ++ viewed_as entity is) }
{
    match is {
        Some(is) => views.push(SharedView { entity, is }),
        None => Ok(()),
    }
}

/// Those of a view behind others, to which it is added.
fn keep_behind(
    alloc: Global,
    typed: &Typed,
    maps: &mut LastMaps,
    kept: &mut Option<Breach>,
    views: &mut SharedViews,
    found: &DeclaredView<'_>,
) -> Result<(), NoMemory>
    ensures breaches { OnOk result
        (kept.new ≡ least_of kept.old (found_breaches typed.now views.old found.now)) }
    ensures views { OnOk result (views.new ≡ with_found_view typed.now views.old found.now) }
{
    let is = keep_map(alloc, typed, maps, kept, views, found)?;
    push_map(views, found.name.entity, is)
}

/// Those of these views behind others, which are added.
pub(crate) fn keep_all(
    alloc: Global,
    typed: &Typed,
    kept: &mut Option<Breach>,
    views: &mut SharedViews,
    found: &[DeclaredView<'_>],
) -> Result<(), NoMemory>
    ensures breaches { OnOk result
        (kept.new ≡ least_of kept.old (all_found_breaches typed.now views.old found.now)) }
    ensures views { OnOk result (views.new ≡ with_all_found typed.now views.old found.now) }
{
    let mut maps = LastMaps::new();
    for view in found {
        keep_behind(alloc, typed, &mut maps, kept, views, view)?;
    }
    Ok(())
}
