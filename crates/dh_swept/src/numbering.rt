//! New numbers for those of several that are marked.

ghost use Rattle.std.specs.Prelude.{◌≡◌, IfOk, OnOk};
ghost use Rattle.dh_swept.specs.KeptCells.{NumbersAll, behind_if, new_number_in};

use dh_base::{Items, NoMemory};
use std::alloc::Global;

/// The numbers of those that are marked.
#[derive(Drop)]
pub struct Numbers {
    /// Their old numbers, in order; so the place is the new one.
    pub at: Items<u64>,
    /// For each old number the new one; that of the next one that is marked, where it isn't.
    pub to: Items<u64>,
}

/// The new number of what had this one, 0 where there is none.
pub fn number_of(to: &[u64], number: u64) -> u64
    ensures { result ≡ new_number_in to.now number }
{
    match to.get(number as usize) {
        Some(new) => *new,
        None => 0,
    }
}

/// Lists a number if it is marked.
fn push_marked(at: &mut Items<u64>, is_marked: bool, number: u64) -> Result<(), NoMemory>
    ensures { OnOk result (at.new ≡ behind_if is_marked number at.old) }
{
    if is_marked {
        at.push(number)?;
    }
    Ok(())
}

/// Numbers those that are marked, in their order.
pub fn number_marked(alloc: Global, flags: &[bool]) -> Result<Numbers, NoMemory>
    ensures { IfOk result (λ numbers. NumbersAll flags.now numbers.at numbers.to) }
{
    let mut at = Items::with_room(alloc, flags.len())?;
    let mut to = Items::with_room(alloc, flags.len())?;
    for i in 0..flags.len() {
        let number = at.len() as u64;
        to.push(number)?;
        push_marked(&mut at, flags[i], i as u64)?;
    }
    Ok(Numbers { at, to })
}
