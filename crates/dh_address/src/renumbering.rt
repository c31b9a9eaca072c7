//! The operations of a block so far: their numbers in the new plan, and the kinds of their values.

ghost use Rattle.std.specs.Prelude.{◌≡◌, ◌-◌, ◌++◌, IfOk, OnOk};
ghost use Rattle.dh_plan.specs.Ordered.{offsets_taken};
ghost use Rattle.dh_plan.specs.PlanKinds.{kind_of_value};
ghost use Rattle.dh_address.specs.Renumbered.{all_renumbered, maybe_renumbered, renumbered, taken_renumbered};

use dh_base::{Items, NoMemory};
use dh_plan::{Reach, ReachStep};
use dh_value::Kind;
use std::alloc::Global;

/// The place of a value in a block, by its number and that of the block's first operation.
pub fn place_from(first: u128, value: u64) -> usize
    ensures { result ≡ value - first }
{
    u128::from(value).saturating_sub(first) as usize
}

/// What is known of the operations of a block so far, in order.
#[derive(Drop)]
pub struct Renumbering {
    /// The number of the block's first operation in the old plan, whatever the plan's size.
    pub first: u128,
    /// The new number of each.
    pub numbers: Items<u64>,
    /// The kind of each one's value.
    pub kinds: Items<Kind>,
}

impl Renumbering {
    /// The new number of a value. (Each value that an operation takes is there: 0 is never given.)
    pub fn number(&self, old: u64) -> u64
        ensures { result ≡ renumbered self.now.first self.now.numbers old }
    {
        let place = place_from(self.first, old);
        match self.numbers.as_slice().get(place) {
            Some(number) => *number,
            None => 0,
        }
    }

    /// The new number of a value that may lack.
    pub fn maybe(&self, old: Option<u64>) -> Option<u64>
        ensures { result ≡ maybe_renumbered self.now.first self.now.numbers old }
    {
        match old {
            None => None,
            Some(old) => Some(self.number(old)),
        }
    }

    /// The new numbers of values.
    pub fn each(&self, alloc: Global, old: &[u64]) -> Result<Items<u64>, NoMemory>
        ensures { IfOk result (λ new. new ≡ all_renumbered self.now old.now) }
    {
        let mut new = Items::new(alloc);
        for value in old {
            new.push(self.number(*value))?;
        }
        Ok(new)
    }

    /// Adds the new numbers of values.
    fn push_each(&self, new: &mut Items<u64>, old: &[u64]) -> Result<(), NoMemory>
        ensures { OnOk result (new.new ≡ new.old ++ all_renumbered self.now old.now) }
    {
        for value in old {
            new.push(self.number(*value))?;
        }
        Ok(())
    }

    /// Adds those of offsets.
    fn push_offsets(&self, new: &mut Items<u64>, steps: &[ReachStep]) -> Result<(), NoMemory>
        ensures { OnOk result
            (new.new ≡ new.old ++ all_renumbered self.now (offsets_taken steps.now)) }
    {
        for step in steps {
            self.push_each(new, step.offsets.as_slice())?;
        }
        Ok(())
    }

    /// The new numbers of the indices of an access and of the offsets of its views.
    pub fn taken(&self, alloc: Global, reach: &Reach) -> Result<Items<u64>, NoMemory>
        ensures { IfOk result (λ new. new ≡ taken_renumbered self.now reach.now) }
    {
        let mut new = self.each(alloc, reach.indices.as_slice())?;
        self.push_offsets(&mut new, reach.steps.as_slice())?;
        Ok(new)
    }

    /// The kind of a value; Bool where it is not there.
    pub fn kind(&self, old: u64) -> Kind
        ensures { result ≡ kind_of_value self.now.first self.now.kinds old }
    {
        let place = place_from(self.first, old);
        match self.kinds.as_slice().get(place) {
            Some(kind) => *kind,
            None => Kind::Bool,
        }
    }
}
