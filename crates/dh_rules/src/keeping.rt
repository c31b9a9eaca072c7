//! Breaches that are kept, and what names stand for.

ghost use Rattle.std.specs.Prelude.{◌≡◌, [], ◌∷◌};
ghost use Rattle.dh_tree.specs.Kinds.{when};
ghost use Rattle.dh_tree.specs.LeastBreach.{least_of, breach};
ghost use Rattle.dh_tree.specs.Placements as placements;

use dh_base::{Place, Rule};
use dh_tree::{Breach, Entity, Sort, keep_least};

/// A rule that may be broken at a place.
pub(crate) fn keep_if(kept: &mut Option<Breach>, is_broken: bool, rule: Rule, place: Place)
    ensures { kept.new ≡ least_of kept.old (when is_broken (breach rule place ∷ [])) }
{
    if is_broken {
        keep_least(kept, Breach { rule, place });
    }
}

/// Whether a sort is that of iterators.
fn is_iterator(sort: Sort) -> bool
    ensures { result ≡ placements.is_iterator sort }
{
    match sort {
        Sort::Iterator => true,
        Sort::Variable | Sort::Memory | Sort::View | Sort::Function => false,
    }
}

/// Whether an entity is an iterator.
pub(crate) fn names_iterator(entities: &[Entity], entity: Option<u32>) -> bool
    ensures { result ≡ placements.names_iterator entities.now entity }
{
    match entity {
        Some(entity) => match entities.get(entity as usize) {
            Some(entity) => is_iterator(entity.sort),
            None => false,
        },
        None => false,
    }
}

/// Whether a sort is that of variables.
fn is_variable(sort: Sort) -> bool
    ensures { result ≡ placements.is_plain_variable sort }
{
    match sort {
        Sort::Variable => true,
        Sort::Iterator | Sort::Memory | Sort::View | Sort::Function => false,
    }
}

/// Whether an entity is a variable, and no iterator.
pub(crate) fn names_variable(entities: &[Entity], entity: Option<u32>) -> bool
    ensures { result ≡ placements.names_variable entities.now entity }
{
    match entity {
        Some(entity) => match entities.get(entity as usize) {
            Some(entity) => is_variable(entity.sort),
            None => false,
        },
        None => false,
    }
}

/// Whether an entity has a number below this one.
pub(crate) fn is_from_outside(first: u32, entity: Option<u32>) -> bool
    ensures { result ≡ placements.is_from_outside first entity }
{
    match entity {
        Some(entity) => entity < first,
        None => false,
    }
}
