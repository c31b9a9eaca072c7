//! The token for ports that a ledger granted. What holds one was given these ports and no others:
//! it can't be copied or dropped, is made by a grant alone, and is taken apart once.

ghost use Rattle.std.specs.Prelude.{◌≡◌, ◌<◌};
ghost use Rattle.dh_ledger.specs.Spending.{banks, KeepsPortLimits};
ghost use Rattle.dh_ledger.specs.Calls.{Grants};

use crate::ledgers::{Full, Ledger};
use std::marker::Model;

/// So many ports of one bank of a memory, spent in a ledger. Clauses see its memory, its bank, the
/// first of its ports and their count.
pub struct Token {
    memory: u32,
    bank: u32,
    first: u32,
    count: u32,
}

impl Model for Token {
    ghost use Rattle.dh_ledger.specs.Granted.{Granted};

    ghost Value = { Granted };

    ghost view = { λ t. record {
      memory = t.memory;
      bank = t.bank;
      first = t.first;
      count = t.count;
    } };
}

impl Token {
    /// Takes the token apart: the memory, the bank, the first port and the count.
    pub fn end(self) -> (u32, u32, u32, u32)
        ensures { result ≡ (self.memory, self.bank, self.first, self.count) }
    {
        let Token {
            memory,
            bank,
            first,
            count,
        } = self;
        (memory, bank, first, count)
    }
}

/// Spends `count` ports of a bank in the ledger of a memory and gives the token for them: its first
/// port is the number that was spent before. Fails exactly where fewer are left; then nothing is
/// spent.
pub fn grant<L: Ledger>(l: &mut L, memory: u32, bank: u32, count: u32) -> Result<Token, Full>
    requires bank { bank < banks (L.state l.old) }
    ensures answer { Grants (L.state l.old) (L.state l.new) memory bank count result }
    ensures keeps { KeepsPortLimits (L.state l.old) (L.state l.new) }
{
    let first = l.spend(bank, count)?;
    Ok(Token {
        memory,
        bank,
        first,
        count,
    })
}
