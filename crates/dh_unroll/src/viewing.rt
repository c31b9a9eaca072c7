//! The views of a plan: those of the program, each by its place among them, so that each is there once. And what accesses
//! take of each: the number of the one behind it on its way, and by each of its banks the banks of the memory that may be
//! reached from there.

ghost use Rattle.std.specs.Prelude.{◌≡◌, ◌<◌, ◌≤◌, ◌+◌, ◌++◌, ◌∷◌, ◌&&◌, ◌||◌, [], ℕ, false, length, map, slice_get, IfOk, OnOk};
ghost use Rattle.std.specs.List.{AllByRecursion};
ghost use Rattle.dh_tree.specs.Elements as elements;
ghost use Rattle.dh_tree.specs.Shapes.{IsDim, most_banks};
ghost use Rattle.dh_tree.specs.ViewShapes.{IsViewMap};
ghost use Rattle.dh_viewing.specs.ReachedBanks.{is_in};
ghost use Rattle.dh_ways.specs.Seen.{led_seen};
ghost use Rattle.dh_expressions.specs.Named.{number_at, set_or_none};
ghost use Rattle.dh_unroll.specs.ViewsListed.{HasSets, LeadsSomewhere, ListsAll, ListsFirst, MakesSets, SetsAlone, SetsBehind, any_in, one_through};

use dh_base::{Items, NoMemory};
use dh_expressions::{Through, narrow};
use dh_tree::{Dim, ViewMap};
use dh_viewing::{BankSet, banks_of};
use dh_ways::WayTable;
use std::alloc::Global;

/// The views of a plan, and what accesses take of them.
#[derive(Drop)]
pub struct ListedViews {
    /// The views.
    pub views: Items<ViewMap>,
    /// By the number of each what is taken of it.
    pub through: Vec<Through>,
}

/// The banks of dimensions together.
fn bank_count(dims: &[Dim]) -> u64
    requires dims { AllByRecursion IsDim dims.now }
    requires few { elements.banks_of dims.now ≤ most_banks }
    ensures { result ≡ elements.banks_of dims.now }
{
    let mut count: u64 = 1;
    for i in 0..dims.len() {
        count = count * dims[i].banks;
    }
    count
}

/// How many banks a view has.
fn view_banks(view: &ViewMap) -> u32
    requires { IsViewMap view.now }
    ensures { result ≡ elements.banks_of view.now.shape.dims }
{
    narrow(bank_count(view.shape.dims.as_slice()))
}

/// No bank.
fn nothing() -> BankSet
    ensures { (bank : ℕ) → is_in result bank ≡ false }
{
    BankSet { bits: 0 }
}

/// The banks of both.
fn joined(first: BankSet, second: BankSet) -> BankSet
    ensures { (bank : ℕ) → is_in result bank ≡ (is_in first bank || is_in second bank) }
{
    BankSet {
        bits: first.bits | second.bits,
    }
}

/// The set of a bank, among those of all banks.
fn set_at(sets: &[BankSet], bank: usize) -> BankSet
    ensures { result ≡ set_or_none (slice_get sets.now bank) }
{
    match sets.get(bank) {
        Some(set) => *set,
        None => BankSet { bits: 0 },
    }
}

/// With the banks of one more set, where a bank is in a set.
fn with_set(found: BankSet, own: BankSet, bank: u32, more: BankSet) -> BankSet
    requires { bank < most_banks }
    ensures { (behind : ℕ) → is_in result behind
        ≡ (is_in found behind || (is_in own bank && is_in more behind)) }
{
    if own.holds(bank) {
        joined(found, more)
    } else {
        found
    }
}

/// The banks of a memory that may be reached from those in a set of banks of a view, by those that may be from each.
fn all_behind(own: BankSet, sets: &[BankSet]) -> BankSet
    requires { length sets.now ≤ most_banks }
    ensures { (behind : ℕ) → is_in result behind
        ≡ any_in own sets.now (length sets.now) behind }
{
    let mut found = nothing();
    for bank in 0..sets.len() {
        let more = set_at(sets, bank);
        let number = narrow(bank as u64);
        found = with_set(found, own, number, more);
    }
    found
}

/// Adds a set of banks.
fn push_set(sets: &mut Items<BankSet>, banks: BankSet) -> Result<(), NoMemory>
    ensures { OnOk result (sets.new ≡ sets.old ++ banks ∷ []) }
{
    sets.push(banks)
}

/// By each bank of a view of a memory the banks of that which may be reached.
fn sets_first(alloc: Global, view: &ViewMap) -> Result<Items<BankSet>, NoMemory>
    requires { IsViewMap view.now }
    ensures { IfOk result
        (λ sets. SetsAlone view.now (elements.banks_of view.now.shape.dims) sets) }
{
    let count = view_banks(view);
    let mut sets = Items::new(alloc);
    for bank in 0..count {
        let reached = banks_of(view, bank);
        push_set(&mut sets, reached)?;
    }
    Ok(sets)
}

/// By each bank of a view of another one the banks of the memory that may be reached, by those that may be from each bank
/// of that one.
fn sets_behind(
    alloc: Global,
    view: &ViewMap,
    parent: &[BankSet],
) -> Result<Items<BankSet>, NoMemory>
    requires map { IsViewMap view.now }
    requires many { length parent.now ≡ elements.banks_of view.now.parent.dims }
    ensures { IfOk result
        (λ sets. SetsBehind view.now parent.now (elements.banks_of view.now.shape.dims) sets) }
{
    let count = view_banks(view);
    let mut sets = Items::new(alloc);
    for bank in 0..count {
        let own = banks_of(view, bank);
        let reached = all_behind(own, parent);
        push_set(&mut sets, reached)?;
    }
    Ok(sets)
}

/// By each bank of a view the banks of the memory that may be reached, where its parent has this place.
fn sets_of(
    alloc: Global,
    view: &ViewMap,
    through: &[Through],
    parent: Option<usize>,
) -> Result<Items<BankSet>, NoMemory>
    requires map { IsViewMap view.now }
    requires parent { HasSets view.now through.now parent }
    ensures { IfOk result (λ sets. MakesSets view.now through.now parent sets) }
{
    match parent {
        Some(place) => {
            let above = &through[place];
            sets_behind(alloc, view, above.banks.as_slice())
        }
        None => sets_first(alloc, view),
    }
}

/// The number of a view's parent, where that has a place.
fn parent_number(parent: Option<usize>) -> u32
    ensures { result ≡ number_at parent }
{
    match parent {
        Some(place) => narrow(place as u64),
        None => 0,
    }
}

/// Adds what is taken of a view.
fn push_through(
    through: &mut Vec<Through>,
    behind: u32,
    banks: Items<BankSet>,
) -> Result<(), NoMemory>
    ensures { OnOk result (through.new.items ≡ through.old.items ++ one_through behind banks ∷ []) }
{
    through.push(Through { behind, banks })?;
    Ok(())
}

/// Lists the view at a place behind those before it.
fn list_at(
    alloc: Global,
    ways: &WayTable,
    place: usize,
    views: &mut Items<ViewMap>,
    through: &mut Vec<Through>,
) -> Result<(), NoMemory>
    requires there { place < length ways.now }
    requires leads { AllByRecursion (λ l. LeadsSomewhere l.way.steps) (map led_seen ways.now) }
    requires lists { ListsFirst (map led_seen ways.now) place views.old through.old.items }
    ensures { OnOk result (ListsFirst (map led_seen ways.now) (place + 1) views.new
        through.new.items) }
{
    let way = ways.at(place);
    let named = way.view();
    let parent = ways.parent_at(place);
    let banks = sets_of(alloc, named, through.as_slice(), parent)?;
    let copy = named.try_clone(alloc)?;
    views.push(copy)?;
    let behind = parent_number(parent);
    push_through(through, behind, banks)?;
    Ok(())
}

/// The views with these ways, of which each has a number of 32 bits.
///
/// # Errors
///
/// `NoMemory` where an allocation was refused.
pub fn list_views(alloc: Global, ways: &WayTable) -> Result<ListedViews, NoMemory>
    requires leads { AllByRecursion (λ l. LeadsSomewhere l.way.steps) (map led_seen ways.now) }
    requires few { length ways.now < 4294967296 }
    ensures { IfOk result (λ l. ListsAll (map led_seen ways.now) l.views l.through.items) }
{
    let mut views = Items::new(alloc);
    let mut through = Vec::new(alloc);
    for place in 0..ways.len() {
        list_at(alloc, ways, place, &mut views, &mut through)?;
    }
    Ok(ListedViews { views, through })
}
