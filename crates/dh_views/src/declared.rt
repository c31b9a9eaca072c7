//! The numbers of types.

ghost use Rattle.std.specs.Prelude.{◌≡◌, map, slice_get};
ghost use Rattle.dh_tree.specs.Indices.{dim_breaches, dims_breaches, shape_breaches, decls_shape_breaches};
ghost use Rattle.dh_tree.specs.LeastBreach.{least_of};
ghost use Rattle.dh_tree.specs.Seen.{declared_seen};
ghost use Rattle.dh_views.specs.Kept.{placed_breaches};

use crate::keeping::keep_if;
use dh_base::{Place, Rule};
use dh_tree::{Breach, Decl, Dim, DimPlaces, Shape, ShapePlaces};
use dh_viewing::divides;

/// The breaches of a dimension whose numbers stand at these places.
#[tactic(auto, using(dh_tree::proofs::Leasts::least_append))]
fn keep_dim(kept: &mut Option<Breach>, size_place: Place, banks_place: Place, dim: Dim)
    ensures { kept.new ≡ least_of kept.old (dim_breaches size_place banks_place dim) }
{
    keep_if(kept, dim.size == 0, Rule::ConstantRange, size_place);
    let is_dealt = divides(dim.banks, dim.size);
    keep_if(kept, !is_dealt, Rule::BankDivides, banks_place);
}

/// Those of a dimension whose numbers stand at the place of this number, or else at their type.
fn keep_placed(kept: &mut Option<Breach>, at: Place, places: &[DimPlaces], i: usize, dim: &Dim)
    ensures { kept.new ≡ least_of kept.old (placed_breaches at (slice_get places.now i) dim.now) }
{
    match places.get(i) {
        Some(place) => keep_dim(kept, place.size_place, place.banks_place, *dim),
        None => keep_dim(kept, at, at, *dim),
    }
}

/// Those of dimensions, at the place of their type where they have none of their own, as in no text.
fn keep_dims(kept: &mut Option<Breach>, at: Place, dims: &[Dim], places: &[DimPlaces])
    ensures { kept.new ≡ least_of kept.old (dims_breaches at dims.now places.now) }
{
    for (i, dim) in dims.iter().enumerate() {
        keep_placed(kept, at, places, i, dim);
    }
}

/// Those of a shape.
#[tactic(auto, using(dh_tree::proofs::Leasts::least_append))]
pub(crate) fn keep_shape(kept: &mut Option<Breach>, shape: &Shape, places: &ShapePlaces)
    ensures { kept.new ≡ least_of kept.old (shape_breaches shape.now places.now) }
{
    let has_no_port = shape.ports == 0;
    keep_if(kept, has_no_port, Rule::ConstantRange, places.ports_place);
    keep_dims(
        kept,
        places.kind_place,
        shape.dims.as_slice(),
        places.dims.as_slice(),
    );
}

/// Those of the shapes of the memories from outside.
pub fn keep_decl_shapes(kept: &mut Option<Breach>, decls: &[Decl])
    ensures { kept.new ≡ least_of kept.old (decls_shape_breaches (map declared_seen decls.now)) }
{
    for decl in decls {
        keep_shape(kept, &decl.shape, &decl.shape_places);
    }
}
