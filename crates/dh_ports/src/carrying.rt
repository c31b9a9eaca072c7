//! How charges on the banks of a view are carried to those of its memory, through all views between.

ghost use Rattle.std.specs.Prelude.{◌≡◌, ◌≤◌, ◌<◌, ◌||◌, false, length, slice_index, IfOk};
ghost use Rattle.std.specs.List.{AllByRecursion};
ghost use Rattle.dh_tree.specs.Elements.{banks_of};
ghost use Rattle.dh_tree.specs.Shapes.{most_banks, IsDim};
ghost use Rattle.dh_tree.specs.ViewShapes.{IsViewMap};
ghost use Rattle.dh_viewing.specs.Carried.{largest};
ghost use Rattle.dh_viewing.specs.ReachedBanks.{covering};
ghost use Rattle.dh_ports.specs.Banks.{each_below};
ghost use Rattle.dh_ports.specs.Carriers as definitions;
ghost use Rattle.dh_ports.specs.Carriers.{carried_to, is_carried, source_in};
ghost use Rattle.dh_ports.specs.CarriersMade.{itself, parent_sources, sources_in, IsCarrierOn};

use crate::banks::bank_count;
use crate::counting::no_counts;
use dh_base::NoMemory;
use dh_tree::{Dim, ViewMap, ViewSort};
use std::alloc::Global;

/// How charges on the banks of a view are carried to those of its memory.
#[derive(Drop)]
pub struct Carrier {
    /// The banks of the view.
    pub banks: u64,
    /// Whether a shift stands between: then each bank of the memory is charged as the most charged bank is.
    pub evenly: bool,
    /// By each bank of the memory the bank of the view as which it is charged, where none stands between.
    pub sources: Vec<usize>,
}

/// Whether a view is a shift.
fn is_shift(view: &ViewMap) -> bool
    ensures { result ≡ definitions.is_shift_sort view.now.sort }
{
    match view.sort {
        ViewSort::Shrink => false,
        ViewSort::Split => false,
        ViewSort::Suffix => false,
        ViewSort::Shift => true,
    }
}

/// Whether one of two things is so.
fn either(one: bool, other: bool) -> bool
    ensures { result ≡ (one || other) }
{
    one || other
}

/// The bank of a shrunk view that covers a bank of its parent.
fn covered(view: &[Dim], parent: &[Dim], bank: u64) -> u64
    requires view { AllByRecursion IsDim view.now }
    requires parent { AllByRecursion IsDim parent.now }
    requires view_banks { banks_of view.now ≤ most_banks }
    requires parent_banks { banks_of parent.now ≤ most_banks }
    requires long { length view.now ≡ length parent.now }
    ensures { result ≡ covering view.now parent.now bank }
{
    let mut inner = bank_count(parent);
    let mut rest = bank;
    let mut own: u64 = 0;
    for i in 0..view.len() {
        inner = inner / parent[i].banks;
        own = own * view[i].banks + rest / inner % view[i].banks;
        rest = rest % inner;
    }
    own
}

/// The bank of a view as which a bank of its parent is charged, where the view is no shift.
fn source_at(view: &ViewMap, bank: u64) -> u64
    requires { IsViewMap view.now }
    ensures { result ≡ source_in view.now.sort view.now.shape.dims view.now.parent.dims bank }
{
    match view.sort {
        ViewSort::Shrink => {
            let dims = view.shape.dims.as_slice();
            covered(dims, view.parent.dims.as_slice(), bank)
        }
        ViewSort::Split => bank,
        ViewSort::Suffix => bank,
        ViewSort::Shift => bank,
    }
}

/// By each of these banks of its parent the bank of a view as which it is charged.
fn sources_on(alloc: Global, view: &ViewMap, behind: &[usize]) -> Result<Vec<usize>, NoMemory>
    requires { IsViewMap view.now }
    ensures { IfOk result (λ sources. sources.items ≡ sources_in view.now behind.now) }
{
    let mut sources = Vec::new(alloc);
    for i in 0..behind.len() {
        let source = source_at(view, behind[i] as u64);
        sources.push(source as usize)?;
    }
    Ok(sources)
}

/// So many banks, each of which is charged as itself.
fn own_banks(alloc: Global, count: u64) -> Result<Vec<usize>, NoMemory>
    ensures { IfOk result (λ banks. banks.items ≡ each_below itself count) }
{
    let mut banks = Vec::new(alloc);
    for bank in 0..count {
        banks.push(bank as usize)?;
    }
    Ok(banks)
}

/// How charges are carried through a view, by how they are behind it: whether evenly, and if not by each bank of the
/// memory the bank of the view's parent as which it is charged.
fn carrier_on(
    alloc: Global,
    view: &ViewMap,
    evenly: bool,
    behind: &[usize],
) -> Result<Carrier, NoMemory>
    requires { IsViewMap view.now }
    ensures { IfOk result (λ carrier. IsCarrierOn view.now evenly behind.now carrier) }
{
    let banks = bank_count(view.shape.dims.as_slice());
    let shifted = is_shift(view);
    let even = either(shifted, evenly);
    if even {
        let none = no_counts(alloc, behind.len() as u64)?;
        return Ok(Carrier {
            banks,
            evenly: true,
            sources: none,
        });
    }
    let sources = sources_on(alloc, view, behind)?;
    Ok(Carrier {
        banks,
        evenly: false,
        sources,
    })
}

/// How charges are carried through a view of a memory.
pub fn carrier_first(alloc: Global, view: &ViewMap) -> Result<Carrier, NoMemory>
    requires { IsViewMap view.now }
    ensures { IfOk result (λ carrier. IsCarrierOn view.now false
        (parent_sources view.now) carrier) }
{
    let count = bank_count(view.parent.dims.as_slice());
    let shifted = is_shift(view);
    if shifted {
        let dims = view.shape.dims.as_slice();
        let banks = bank_count(dims);
        let none = no_counts(alloc, count)?;
        return Ok(Carrier {
            banks,
            evenly: true,
            sources: none,
        });
    }
    let banks = own_banks(alloc, count)?;
    let carrier = carrier_on(alloc, view, false, banks.as_slice())?;
    Ok(carrier)
}

/// How they are through a view of one through which they are carried so.
pub fn carrier_behind(alloc: Global, view: &ViewMap, parent: &Carrier) -> Result<Carrier, NoMemory>
    requires { IsViewMap view.now }
    ensures { IfOk result (λ carrier. IsCarrierOn view.now parent.now.evenly
        parent.now.sources.items carrier) }
{
    let carrier = carrier_on(alloc, view, parent.evenly, parent.sources.as_slice())?;
    Ok(carrier)
}

/// Whether one key on a bank of the view is carried to a bank of the memory.
pub fn carries(carrier: &Carrier, bank: u64, behind: usize) -> bool
    requires { behind < length carrier.now.sources.items }
    ensures { result ≡ is_carried carrier.now bank behind }
{
    if carrier.evenly {
        bank < carrier.banks
    } else {
        let source = carrier.sources[behind];
        source as u64 == bank
    }
}

/// What is carried to a bank of the memory, by the charges on the banks of the view and the largest of them.
pub fn carried_at(carrier: &Carrier, counts: &[usize], most: usize, behind: usize) -> usize
    requires there { behind < length carrier.now.sources.items }
    requires within { slice_index carrier.now.sources.items behind < length counts.now }
    requires most { most ≡ largest (slice_index counts.now) carrier.now.banks }
    ensures { result ≡ carried_to carrier.now (slice_index counts.now) behind }
{
    if carrier.evenly {
        most
    } else {
        let source = carrier.sources[behind];
        counts[source]
    }
}
