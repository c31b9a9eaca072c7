//! Views that are kept once where they are the same. A program mostly has many views of few shapes and factors, so that of
//! each sort the last one is at hand.

ghost use Rattle.std.specs.Prelude.{◌≡◌, map, IfOk, IfSome, IsTrue};
ghost use Rattle.dh_tree.specs.Seen.{factor_seen, view_plan};
ghost use Rattle.dh_tree.specs.Views.{factors_of, map_of};
ghost use Rattle.dh_viewing.specs.Shared.{IsAlike};

use crate::collecting::{map_to, sort};
use dh_base::NoMemory;
use dh_tree::{Dim, Expr, Shape, ViewForm, ViewMap, ViewSort};
use dh_value::Kind;
use std::alloc::Global;
use std::marker::Model;
use std::rc::Rc;

/// Whether two kinds are the same.
fn are_kinds(one: Kind, other: Kind) -> bool
    ensures { IsTrue result → one ≡ other }
{
    match (one, other) {
        (Kind::Bool, Kind::Bool) => true,
        (Kind::Unsigned(width), Kind::Unsigned(other)) => width == other,
        (Kind::Signed(width), Kind::Signed(other)) => width == other,
        _ => false,
    }
}

/// Whether two sorts are the same.
fn are_sorts(one: ViewSort, other: ViewSort) -> bool
    ensures { IsTrue result → one ≡ other }
{
    match (one, other) {
        (ViewSort::Shrink, ViewSort::Shrink) => true,
        (ViewSort::Split, ViewSort::Split) => true,
        (ViewSort::Suffix, ViewSort::Suffix) => true,
        (ViewSort::Shift, ViewSort::Shift) => true,
        _ => false,
    }
}

/// Whether numbers are the same.
fn are_numbers(one: &[u64], other: &[u64]) -> bool
    ensures { IsTrue result → one.now ≡ other.now }
{
    one == other
}

/// Whether numbers are the factors of a suffix, each of which stands beside its offset.
fn are_multiples(numbers: &[u64], by: &[(u64, Expr)]) -> bool
    ensures { IsTrue result → numbers.now ≡ map (λ s. s.factor) (map factor_seen by.now) }
{
    if numbers.len() != by.len() {
        return false;
    }
    for (i, pair) in by.iter().enumerate() {
        if numbers[i] != pair.0 {
            return false;
        }
    }
    true
}

/// Whether numbers are the factors of a view.
fn are_factors(numbers: &[u64], form: &ViewForm) -> bool
    ensures { IsTrue result → numbers.now ≡ factors_of (view_plan form.now) }
{
    match form {
        ViewForm::Shrink { by, .. } => are_numbers(numbers, by.as_slice()),
        ViewForm::Split { by, .. } => are_numbers(numbers, by.as_slice()),
        ViewForm::Suffix { by, .. } => are_multiples(numbers, by.as_slice()),
        ViewForm::Shift { .. } => numbers.is_empty(),
    }
}

/// Whether dimensions are the same.
fn are_dims(one: &[Dim], other: &[Dim]) -> bool
    ensures { IsTrue result → one.now ≡ other.now }
{
    one == other
}

/// Whether two shapes are the same.
fn are_shapes(one: &Shape, other: &Shape) -> bool
    ensures { IsTrue result → one.now ≡ other.now }
{
    one.ports == other.ports
        && are_kinds(one.kind, other.kind)
        && are_dims(one.dims.as_slice(), other.dims.as_slice())
}

/// Whether a view has this form, and what it is of this shape.
fn is_alike(map: &ViewMap, form: &ViewForm, parent: &Shape) -> bool
    ensures { IsTrue result → IsAlike map.now (view_plan form.now) parent.now }
{
    are_sorts(map.sort, sort(form))
        && are_factors(map.by.as_slice(), form)
        && are_shapes(&map.parent, parent)
}

/// A view, which all that are the same may share. A contract sees it as the view.
#[derive(Drop)]
pub struct SharedMap {
    map: Rc<ViewMap>,
}

impl Model for SharedMap {
    ghost use Rattle.dh_tree.specs.declared.viewing.ViewMap.{ViewMap};
    ghost use Rattle.dh_viewing.specs.Shared.{IsMadeFromParent};

    ghost Value = { ViewMap };

    ghost view = { λ s. s.map.value };

    ghost invariant = { λ s. IsMadeFromParent s.map.value };
}

impl SharedMap {
    /// A view of what has this shape.
    fn new(alloc: Global, form: &ViewForm, parent: &Shape) -> Result<SharedMap, NoMemory>
        ensures { IfOk result (λ made. made ≡ map_of (view_plan form.now) parent.now) }
    {
        let made = map_to(alloc, form, parent)?;
        let map = Rc::new(alloc, made)?;
        Ok(SharedMap { map })
    }

    /// The view.
    pub fn as_map(&self) -> &ViewMap
        ensures { result.now ≡ self.now }
    {
        self.map.as_ref()
    }

    /// It once more.
    fn try_clone(&self) -> Result<SharedMap, NoMemory>
        ensures { IfOk result (λ copy. copy ≡ self.now) }
    {
        let map = self.map.clone()?;
        Ok(SharedMap { map })
    }

    /// Whether it is the view of what has this shape.
    fn is_of(&self, form: &ViewForm, parent: &Shape) -> bool
        ensures { IsTrue result → self.now ≡ map_of (view_plan form.now) parent.now }
    {
        let map = self.map.as_ref();
        is_alike(map, form, parent)
    }
}

/// The last view, where it is that of what has this shape.
fn again(
    last: &Option<SharedMap>,
    form: &ViewForm,
    parent: &Shape,
) -> Result<Option<SharedMap>, NoMemory>
    ensures { IfOk result (λ again. IfSome again (λ made. made
        ≡ map_of (view_plan form.now) parent.now)) }
{
    match last {
        Some(made) => {
            if made.is_of(form, parent) {
                Ok(Some(made.try_clone()?))
            } else {
                Ok(None)
            }
        }
        None => Ok(None),
    }
}

/// A view of what has this shape, which then is the last one.
fn shared(
    alloc: Global,
    last: &mut Option<SharedMap>,
    form: &ViewForm,
    parent: &Shape,
) -> Result<SharedMap, NoMemory>
    ensures { IfOk result (λ made. made ≡ map_of (view_plan form.now) parent.now) }
{
    match again(last, form, parent)? {
        Some(made) => Ok(made),
        None => {
            let made = SharedMap::new(alloc, form, parent)?;
            *last = Some(made.try_clone()?);
            Ok(made)
        }
    }
}

/// The last view of each sort, which the next one mostly is again.
#[derive(Drop)]
pub struct LastMaps {
    shrink: Option<SharedMap>,
    split: Option<SharedMap>,
    suffix: Option<SharedMap>,
    shift: Option<SharedMap>,
}

impl LastMaps {
    /// No view.
    pub fn new() -> LastMaps {
        LastMaps {
            shrink: None,
            split: None,
            suffix: None,
            shift: None,
        }
    }

    /// A view of what has this shape.
    ///
    /// # Errors
    ///
    /// `NoMemory`, the one error; no clause tells when.
    pub fn map_to(
        &mut self,
        alloc: Global,
        form: &ViewForm,
        parent: &Shape,
    ) -> Result<SharedMap, NoMemory>
        ensures { IfOk result (λ made. made ≡ map_of (view_plan form.now) parent.now) }
    {
        match form {
            ViewForm::Shrink { .. } => shared(alloc, &mut self.shrink, form, parent),
            ViewForm::Split { .. } => shared(alloc, &mut self.split, form, parent),
            ViewForm::Suffix { .. } => shared(alloc, &mut self.suffix, form, parent),
            ViewForm::Shift { .. } => shared(alloc, &mut self.shift, form, parent),
        }
    }
}
