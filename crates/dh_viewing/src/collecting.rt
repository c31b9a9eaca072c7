//! The views of a program.

ghost use Rattle.std.specs.Prelude.{◌≡◌, ◌++◌, ◌/◌, Some, true, map, option_map, slice_get, IfOk, OnOk};
ghost use Rattle.std.specs.Option.{is_some};
ghost use Rattle.dh_tree.specs.Memories.{memories_of};
ghost use Rattle.dh_tree.specs.Seen.{action_seen, all_parts_seen, maybe_block_seen, factor_seen, view_plan, program_seen};
ghost use Rattle.dh_tree.specs.Views.{dims_of, factors_of, groups_viewings, map_of, other_viewings, shape_in, shrunk_dims, sort_of, split_dims, view_of, viewed_in, viewings, views_of};
ghost use Rattle.dh_viewing.specs.Finding.{FindsViews, viewings_found, entry_shape, map_behind, memory_shape_in, shrunk_by, viewed_as, with_all_found, with_found_view};

use crate::placing::ViewTable;
use dh_base::{Items, NoMemory};
use dh_tree::{
    Command, CommandForm, Dim, Expr, MemEntry, Ref, Shape, Typed, ViewForm, ViewMap, ViewSort,
    Viewed,
};
use std::alloc::Global;

/// A view, where it is declared.
#[derive(Clone, Copy)]
pub(crate) struct DeclaredView<'a> {
    pub(crate) name: &'a Ref,
    pub(crate) parent: &'a Ref,
    pub(crate) form: &'a ViewForm,
}

/// Finds the views that a command declares, in the order of the tree.
#[cycle(finding)]
#[tactic(auto, using(dh_tree::proofs::SeenActions::actions_are, dh_tree::proofs::Collecting::found_none, dh_tree::proofs::Collecting::found_both))]
fn find_views<'a>(found: &mut Vec<DeclaredView<'a>>, command: &'a Command) -> Result<(), NoMemory>
    ensures { FindsViews result found.old found.new (viewings (action_seen command.now)) }
{
    match &command.form {
        CommandForm::View { name, parent, form } => Ok(found.push(DeclaredView {
            name,
            parent,
            form,
        })?),
        CommandForm::Block { body } => find_in_parts(found, body.as_slice()),
        CommandForm::If { then, other, .. } => {
            find_views(found, then)?;
            find_in_other(found, other)
        }
        CommandForm::While { body, .. } => find_views(found, body),
        CommandForm::For { body, combine, .. } => {
            find_views(found, body)?;
            find_in_other(found, combine)
        }
        CommandForm::Let { .. }
        | CommandForm::LetMemory { .. }
        | CommandForm::Assign { .. }
        | CommandForm::Store { .. }
        | CommandForm::Reduce { .. }
        | CommandForm::Call { .. } => Ok(()),
    }
}

/// Finds those of a block that may lack.
#[cycle(finding)]
fn find_in_other<'a>(
    found: &mut Vec<DeclaredView<'a>>,
    other: &'a Option<Box<Command>>,
) -> Result<(), NoMemory>
    ensures { FindsViews result found.old found.new (other_viewings (maybe_block_seen other.now)) }
{
    match other {
        Some(block) => find_views(found, block),
        None => Ok(()),
    }
}

/// Finds those of parts.
#[cycle(finding)]
fn find_in_parts<'a>(
    found: &mut Vec<DeclaredView<'a>>,
    parts: &'a [Vec<Command>],
) -> Result<(), NoMemory>
    ensures { FindsViews result found.old found.new (groups_viewings (all_parts_seen parts.now)) }
{
    for part in parts {
        for command in part {
            find_views(found, command)?;
        }
    }
    Ok(())
}

/// A number of banks or elements by a factor, rounded down; 0 by 0, which no kept program has.
fn shared_out(number: u64, factor: u64) -> u64
    ensures { result ≡ number / factor }
{
    if factor == 0 { 0 } else { number / factor }
}

/// A dimension of a shrunk view, by the factor at its place, if there is one.
fn shrunk_dim(factors: &[u64], place: usize, dim: &Dim) -> Dim
    ensures { result ≡ shrunk_by (slice_get factors.now place) dim.now }
{
    match factors.get(place) {
        Some(factor) => Dim {
            size: dim.size,
            banks: shared_out(dim.banks, *factor),
        },
        None => *dim,
    }
}

/// The dimensions of a shrunk view: the same sizes in fewer banks.
fn shrunk(alloc: Global, factors: &[u64], dims: &[Dim]) -> Result<Items<Dim>, NoMemory>
    ensures { IfOk result (λ ds. ds ≡ shrunk_dims factors.now dims.now) }
{
    let mut all = Items::with_room(alloc, dims.len())?;
    for (i, dim) in dims.iter().enumerate() {
        all.push(shrunk_dim(factors, i, dim))?;
    }
    Ok(all)
}

/// The dimensions of a split: so many copies, and what each of them has.
fn split(alloc: Global, factors: &[u64], dims: &[Dim]) -> Result<Items<Dim>, NoMemory>
    ensures { IfOk result (λ ds. ds ≡ split_dims factors.now dims.now) }
{
    let mut all = Items::new(alloc);
    let Some(factor) = factors.first() else {
        return Ok(all);
    };
    let Some(dim) = dims.first() else {
        return Ok(all);
    };
    all.push(Dim {
        size: *factor,
        banks: *factor,
    })?;
    all.push(Dim {
        size: shared_out(dim.size, *factor),
        banks: shared_out(dim.banks, *factor),
    })?;
    Ok(all)
}

/// The dimensions of a view of what has these.
fn dims(alloc: Global, form: &ViewForm, parent: &[Dim]) -> Result<Items<Dim>, NoMemory>
    ensures { IfOk result (λ ds. ds ≡ dims_of (view_plan form.now) parent.now) }
{
    match form {
        ViewForm::Shrink { by, .. } => shrunk(alloc, by.as_slice(), parent),
        ViewForm::Split { by, .. } => split(alloc, by.as_slice(), parent),
        ViewForm::Suffix { .. } => Ok(Items::from_vec(Vec::from_slice(alloc, parent)?)),
        ViewForm::Shift { .. } => Ok(Items::from_vec(Vec::from_slice(alloc, parent)?)),
    }
}

/// The factors of a suffix, without its offsets.
fn suffix_factors(alloc: Global, by: &[(u64, Expr)]) -> Result<Items<u64>, NoMemory>
    ensures { IfOk result (λ ks. ks ≡ map (λ s. s.factor) (map factor_seen by.now)) }
{
    let mut factors = Items::with_room(alloc, by.len())?;
    for pair in by {
        factors.push(pair.0)?;
    }
    Ok(factors)
}

/// The factors of a view.
fn factors(alloc: Global, form: &ViewForm) -> Result<Items<u64>, NoMemory>
    ensures { IfOk result (λ ks. ks ≡ factors_of (view_plan form.now)) }
{
    match form {
        ViewForm::Shrink { by, .. } => Ok(Items::from_vec(Vec::from_slice(alloc, by.as_slice())?)),
        ViewForm::Split { by, .. } => Ok(Items::from_vec(Vec::from_slice(alloc, by.as_slice())?)),
        ViewForm::Suffix { by, .. } => suffix_factors(alloc, by.as_slice()),
        ViewForm::Shift { .. } => Ok(Items::new(alloc)),
    }
}

/// The sort of a view.
pub(crate) fn sort(form: &ViewForm) -> ViewSort
    ensures { result ≡ sort_of (view_plan form.now) }
{
    match form {
        ViewForm::Shrink { .. } => ViewSort::Shrink,
        ViewForm::Split { .. } => ViewSort::Split,
        ViewForm::Suffix { .. } => ViewSort::Suffix,
        ViewForm::Shift { .. } => ViewSort::Shift,
    }
}

/// A view of what has this shape.
///
/// # Errors
///
/// `NoMemory`, the one error; no clause tells when.
pub(crate) fn map_to(alloc: Global, form: &ViewForm, parent: &Shape) -> Result<ViewMap, NoMemory>
    ensures { IfOk result (λ m. m ≡ map_of (view_plan form.now) parent.now) }
{
    let own = Shape {
        kind: parent.kind,
        ports: parent.ports,
        dims: dims(alloc, form, parent.dims.as_slice())?,
    };
    Ok(ViewMap {
        shape: own,
        parent: parent.try_clone(alloc)?,
        sort: sort(form),
        by: factors(alloc, form)?,
    })
}

/// The shape of the entry of this number, if there is one.
fn shape_at(entries: &[MemEntry], number: usize) -> Option<&Shape>
    ensures { option_map (λ s. s.now) result ≡ entry_shape (slice_get entries.now number) }
{
    match entries.get(number) {
        Some(entry) => Some(&entry.shape),
        None => None,
    }
}

/// The shape of the memory that an entity is, if it is one.
pub fn shape_of_memory(typed: &Typed, entity: Option<u32>) -> Option<&Shape>
    ensures { option_map (λ s. s.now) result ≡ memory_shape_in typed.now entity }
{
    let Some(entity) = entity else {
        return None;
    };
    let Some(number) = typed.memory_number(entity) else {
        return None;
    };
    shape_at(typed.memories().as_slice(), number)
}

/// The shape of the memory, or else of the view, that an entity is.
fn shape_of<'a>(typed: &'a Typed, views: &'a ViewTable, entity: Option<u32>) -> Option<&'a Shape>
    ensures { option_map (λ s. s.now) result
        ≡ shape_in (memories_of (program_seen typed.now)) views.now entity }
{
    match shape_of_memory(typed, entity) {
        Some(shape) => Some(shape),
        None => match views.get(entity) {
            Some(view) => Some(&view.shape),
            None => None,
        },
    }
}

/// What a view is whose parent is a memory or one of these views.
fn map_behind(
    alloc: Global,
    typed: &Typed,
    views: &ViewTable,
    found: &DeclaredView<'_>,
) -> Result<Option<ViewMap>, NoMemory>
    ensures { IfOk result (λ m. m ≡ map_behind typed.now views.now found.now) }
{
    match shape_of(typed, views, found.parent.entity) {
        Some(parent) => Ok(Some(map_to(alloc, found.form, parent)?)),
        None => Ok(None),
    }
}

/// Adds the view that an entity is behind others, where there is one.
#[tactic(auto, using(dh_tree::proofs::Collecting::found_none))]
pub(crate) fn push_map(
    views: &mut ViewTable,
    entity: Option<u32>,
    is: Option<ViewMap>,
) -> Result<(), NoMemory>
    ensures { OnOk result (views.new ≡ views.old ++ viewed_as entity is) }
{
    match is {
        Some(is) => views.push(Viewed { entity, is }),
        None => Ok(()),
    }
}

/// Adds a view behind others; one that has no parent, as in no typed program, is none.
fn push_view(
    alloc: Global,
    typed: &Typed,
    views: &mut ViewTable,
    found: &DeclaredView<'_>,
) -> Result<(), NoMemory>
    ensures { OnOk result (views.new ≡ with_found_view typed.now views.old found.now) }
{
    let is = map_behind(alloc, typed, views, found)?;
    push_map(views, found.name.entity, is)
}

/// Those of these views behind others.
fn push_views(
    alloc: Global,
    typed: &Typed,
    views: &mut ViewTable,
    found: &[DeclaredView<'_>],
) -> Result<(), NoMemory>
    ensures { OnOk result (views.new ≡ with_all_found typed.now views.old found.now) }
{
    for view in found {
        push_view(alloc, typed, views, view)?;
    }
    Ok(())
}

/// The views that a program declares, in text order.
pub(crate) fn found_in<'a>(
    alloc: Global,
    typed: &'a Typed,
) -> Result<Vec<DeclaredView<'a>>, NoMemory>
    ensures { IfOk result (λ found. viewings_found found.items ≡ views_of (program_seen typed.now)) }
{
    let mut found = Vec::new(alloc);
    find_views(&mut found, &typed.tree().body)?;
    Ok(found)
}

/// The views of a program, each found by its entity.
fn table_in(alloc: Global, typed: &Typed) -> Result<ViewTable, NoMemory>
    ensures { IfOk result (λ views. views ≡ viewed_in (program_seen typed.now)) }
{
    let found = found_in(alloc, typed)?;
    let mut views = ViewTable::with_room(alloc, found.len())?;
    push_views(alloc, typed, &mut views, found.as_slice())?;
    Ok(views)
}

/// The view of a program that is an entity.
///
/// # Errors
///
/// `NoMemory`, the one error; no clause tells when.
pub fn view_map(alloc: Global, typed: &Typed, view: u32) -> Result<ViewMap, NoMemory>
    requires { is_some (view_of (program_seen typed.now) view) ≡ true }
    ensures { IfOk result (λ m. Some m ≡ view_of (program_seen typed.now) view) }
{
    let views = table_in(alloc, typed)?;
    match views.get(Some(view)) {
        Some(map) => map.try_clone(alloc),
        None => unreachable!(),
    }
}
