//! Sets of banks, and which banks of its parent a view can reach.

ghost use Rattle.std.specs.Prelude.{◌≡◌, ◌↔◌, ◌<◌, ◌≤◌, ◌+◌, ◌*◌, ◌^◌, ℕ, IsTrue, if◌then◌else◌, length};
ghost use Rattle.std.specs.List.{AllByRecursion};
ghost use Rattle.dh_tree.specs.Elements as elements;
ghost use Rattle.dh_tree.specs.Shapes.{IsDim, most_banks};
ghost use Rattle.dh_viewing.specs.ReachedBanks.{ReachesBank, can_reach, covering, is_in};
ghost use Rattle.dh_tree.specs.ViewShapes.{IsViewMap};

use dh_tree::{Dim, ViewMap, ViewSort};

/// Banks of a memory or a view, of which there are at most 64: one bit for each.
#[derive(Clone, Copy, PartialEq, Eq)]
pub struct BankSet {
    /// The bit of bank b is set where it is one of them.
    pub bits: u64,
}

impl BankSet {
    /// Whether a bank is one of them.
    pub fn holds(self, bank: u32) -> bool
        requires { bank < most_banks }
        ensures { result ≡ is_in self bank }
    {
        (self.bits >> bank) & 1 == 1
    }
}

/// The banks of dimensions together.
fn bank_count(dims: &[Dim]) -> u64
    requires dims { AllByRecursion IsDim dims.now }
    requires few { elements.banks_of dims.now ≤ most_banks }
    ensures { result ≡ elements.banks_of dims.now }
{
    let mut count: u64 = 1;
    for i in 0..dims.len() {
        count = count * dims[i].banks;
    }
    count
}

/// The bank of a shrunk view that covers a bank of its parent.
fn covering_bank(view: &[Dim], parent: &[Dim], parent_bank: u64) -> u64
    requires view { AllByRecursion IsDim view.now }
    requires parent { AllByRecursion IsDim parent.now }
    requires view_banks { elements.banks_of view.now ≤ most_banks }
    requires parent_banks { elements.banks_of parent.now ≤ most_banks }
    requires long { length view.now ≡ length parent.now }
    ensures { result ≡ covering view.now parent.now parent_bank }
{
    let mut inner = bank_count(parent);
    let mut rest = parent_bank;
    let mut bank: u64 = 0;
    for i in 0..view.len() {
        inner = inner / parent[i].banks;
        bank = bank * view[i].banks + rest / inner % view[i].banks;
        rest = rest % inner;
    }
    bank
}

/// Whether a bank of the view reaches a bank of the parent.
fn reaches(v: &ViewMap, bank: u64, parent_bank: u64) -> bool
    requires { IsViewMap v.now }
    ensures { result ≡ can_reach v.now bank parent_bank }
{
    match v.sort {
        ViewSort::Shrink => {
            let view = v.shape.dims.as_slice();
            covering_bank(view, v.parent.dims.as_slice(), parent_bank) == bank
        }
        ViewSort::Split => parent_bank == bank,
        ViewSort::Suffix => parent_bank == bank,
        ViewSort::Shift => true,
    }
}

/// A number with a bit put behind its last one.
fn with_bit(bits: u64, bit: bool) -> u64
    requires room { bits * 2 + 1 < 2 ^ 64 }
    ensures { result ≡ bits * 2 + (if bit then 1 else 0) }
{
    if bit { bits * 2 + 1 } else { bits * 2 }
}

/// The banks of its parent that a bank of a view can reach: exactly those in which there is an element that
/// some index of the view's bank names, under some offset.
pub fn banks_of(v: &ViewMap, bank: u32) -> BankSet
    requires map { IsViewMap v.now }
    requires bank { bank < elements.banks_of v.now.shape.dims }
    ensures { (c : ℕ) → IsTrue (is_in result c) ↔ ReachesBank v.now bank c }
{
    let own = u64::from(bank);
    let mut bits: u64 = 0;
    for parent_bank in (0..bank_count(v.parent.dims.as_slice())).rev() {
        bits = with_bit(bits, reaches(v, own, parent_bank));
    }
    BankSet { bits }
}
