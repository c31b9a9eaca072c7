//! A ledger as a trait. It counts the ports that are spent on each bank of one memory.

ghost use Rattle.std.specs.Prelude.{◌≡◌, ◌<◌};
ghost use Rattle.dh_ledger.specs.Spending.{Spending, banks, spent_on, IsWithinPorts, SpendingsAreAlike, KeepsPortLimits, IsLarger, IsLeastAbove};
ghost use Rattle.dh_ledger.specs.Calls.{SpendsPorts};

use thiserror::Error;

/// A bank has too few ports left.
#[derive(Clone, Copy, Debug, PartialEq, Eq, Error)]
#[error("bank {bank} has too few ports left after {spent}")]
pub struct Full {
    /// The bank, from 0.
    pub bank: u32,
    /// How many of its ports are spent.
    pub spent: u32,
}

/// A count of the ports that are spent on each bank of one memory. Its banks, which go by their
/// number from 0, and the ports of each bank never change. No bank spends more than its ports.
/// No call takes memory.
pub trait Ledger {
    /// A state of a ledger, kept to come back to.
    type Mark: Copy + Drop;

    /// What a clause sees of a ledger.
    ghost state: { Self → Spending };

    /// What a clause sees of a mark.
    ghost marked: { Self.Mark → Spending };

    /// Spends `count` ports of a bank and answers the number that was spent before, which is the
    /// first port. Fails exactly where fewer than `count` ports are left; then nothing is spent.
    fn spend(&mut self, bank: u32, count: u32) -> Result<u32, Full>
        requires bank { bank < banks (state self.old) }
        ensures answer { SpendsPorts (state self.old) (state self.new) bank count result }
        ensures keeps { KeepsPortLimits (state self.old) (state self.new) };

    /// How many ports of a bank are spent.
    fn spent(&self, bank: u32) -> u32
        requires bank { bank < banks (state self.now) }
        ensures number { result ≡ spent_on (state self.now) bank }
        ensures within { IsWithinPorts (state self.now) };

    /// A value that holds the present state.
    fn mark(&self) -> Self::Mark
        ensures holds { marked result ≡ state self.now }
        ensures within { IsWithinPorts (state self.now) };

    /// Makes the state that of a mark, which is of a ledger of the same banks and ports.
    fn back_to(&mut self, m: &Self::Mark)
        requires alike { SpendingsAreAlike (state self.old) (marked m.now) }
        ensures back { state self.new ≡ marked m.now }
        ensures keeps { KeepsPortLimits (state self.old) (state self.new) };

    /// Gives each bank the larger of its number and that of a mark, which is of a ledger of the same
    /// banks and ports. This is the least state above both.
    fn join_max(&mut self, m: &Self::Mark)
        requires alike { SpendingsAreAlike (state self.old) (marked m.now) }
        ensures larger { IsLarger (state self.old) (marked m.now) (state self.new) }
        ensures least { IsLeastAbove (state self.old) (marked m.now) (state self.new) }
        ensures keeps { KeepsPortLimits (state self.old) (state self.new) };
}
