//! A ledger that keeps one number for each bank.

ghost use Rattle.std.specs.Prelude.{◌≡◌, ◌≤◌};
ghost use Rattle.dh_ledger.specs.Spending.{zero_counts};
ghost use Rattle.dh_ledger.specs.Counts.{AreLarger};

use crate::ledgers::{Full, Ledger};
use std::marker::Model;

/// The most banks of a memory.
const MAX_BANKS: usize = 64;

/// A ledger that keeps one number for each bank. It is its own mark.
#[derive(Clone, Copy)]
pub struct CountLedger {
    // a byte each, since no bank has more than 8 ports; past the last bank they are 0
    counts: [u8; MAX_BANKS],
    banks: u32,
    ports: u32,
}

impl Model for CountLedger {
    ghost use Rattle.std.proofs.Common.{arith};
    ghost use Rattle.std.proofs.lemmas.List.{length-take-le};
    ghost use Rattle.dh_ledger.specs.Spending.{Spending};

    ghost Value = { Spending };

    ghost use Rattle.dh_ledger.specs.Counts.{held_spending, HasFittingCounts, spending_fields, padded};

    ghost view = { held_spending };

    ghost invariant = { HasFittingCounts };

    ghost inverse = { spending_fields };

    ghost inverse_ok = { λ l h i. record {
      counts = padded l.counts l.banks h.long h.banks_fit h.none_past i;
      banks = length-take-le l.banks l.counts (omega (arith, h.long, h.banks_fit)) i;
      ports = l.ports;
    } };
}

impl CountLedger {
    /// A ledger of so many banks, at most 64, with so many ports each, at most 8. Nothing is spent.
    pub fn new(banks: u32, ports: u32) -> CountLedger
        requires banks { banks ≤ 64 }
        requires ports { ports ≤ 8 }
        ensures { result ≡ record { ports = ports; spent = zero_counts banks } }
    {
        CountLedger {
            counts: [0; MAX_BANKS],
            banks,
            ports,
        }
    }
}

impl Ledger for CountLedger {
    type Mark = CountLedger;

    ghost state = { λ l. l };

    ghost marked = { λ m. m };

    fn spend(&mut self, bank: u32, count: u32) -> Result<u32, Full> {
        let spent = self.counts[bank as usize] as u32;
        if count > self.ports - spent {
            return Err(Full { bank, spent });
        }
        self.counts[bank as usize] = (spent + count) as u8;
        Ok(spent)
    }

    fn spent(&self, bank: u32) -> u32 {
        self.counts[bank as usize] as u32
    }

    fn mark(&self) -> CountLedger {
        CountLedger {
            counts: self.counts,
            banks: self.banks,
            ports: self.ports,
        }
    }

    fn back_to(&mut self, m: &CountLedger) {
        self.counts = m.counts;
    }

    fn join_max(&mut self, m: &CountLedger) {
        join(&mut self.counts, &m.counts);
    }
}

/// Gives each number the larger of itself and the other at its place.
fn join(counts: &mut [u8; MAX_BANKS], others: &[u8; MAX_BANKS])
    ensures { AreLarger counts.old others.now counts.new }
{
    for bank in 0..MAX_BANKS {
        counts[bank] = counts[bank].max(others[bank]);
    }
}
