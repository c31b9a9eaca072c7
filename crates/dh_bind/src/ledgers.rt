//! The ledgers of all memories, and marks to come back to.

ghost use Rattle.std.specs.Prelude.{◌≡◌, ◌<◌, ◌≤◌, ◌++◌, IfOk, OnOk, length, map, take, drop};
ghost use Rattle.std.specs.List.{AllByRecursion};
ghost use Rattle.dh_tree.specs.Shapes.{IsMemory};
ghost use Rattle.dh_bind.specs.Fresh.{fresh};
ghost use Rattle.dh_bind.specs.Ledgers.{Alike, AreMarks, GrantsAt, Rises, ledger_banks, ends_now, undone_ledgers};

use dh_base::NoMemory;
use dh_ledger::{CountLedger, Full, Ledger, Token, grant};
use dh_tree::MemEntry;
use std::alloc::Global;

/// The state of a memory's ledger.
#[derive(Drop)]
pub struct LedgerMark {
    /// The memory.
    pub memory: u32,
    /// The state.
    pub state: CountLedger,
}

/// Grants ports of a bank of a memory.
pub fn grant_at(
    ledgers: &mut [CountLedger],
    memory: u32,
    bank: u32,
    count: u32,
) -> Result<Token, Full>
    requires memory { memory < length ledgers.old }
    requires bank { bank < ledger_banks ledgers.old memory }
    ensures { GrantsAt ledgers.old ledgers.new memory bank count result }
{
    grant(&mut ledgers[memory as usize], memory, bank, count)
}

/// Adds marks of the memories of a log, with their present states.
pub fn note_ends(
    ledgers: &[CountLedger],
    log: &[LedgerMark],
    ends: &mut Vec<LedgerMark>,
) -> Result<(), NoMemory>
    requires { AreMarks ledgers.now log.now }
    ensures { OnOk result (ends.new.items ≡ ends.old.items ++ ends_now ledgers.now log.now) }
{
    for mark in log {
        ends.push(LedgerMark {
            memory: mark.memory,
            state: ledgers[mark.memory as usize].mark(),
        })?;
    }
    Ok(())
}

/// Makes the ledgers what they were before the changes of a log.
pub fn go_back(ledgers: &mut [CountLedger], log: &[LedgerMark])
    requires { AreMarks ledgers.old log.now }
    ensures back { ledgers.new ≡ undone_ledgers log.now ledgers.old }
    ensures alike { Alike ledgers.old ledgers.new }
{
    for i in (0..log.len()).rev() {
        let mark = &log[i];
        ledgers[mark.memory as usize].back_to(&mark.state);
    }
}

/// Gives each bank the most that marks spend on it, and logs what was before.
pub fn rise(
    ledgers: &mut [CountLedger],
    ends: &[LedgerMark],
    log: &mut Vec<LedgerMark>,
) -> Result<(), NoMemory>
    requires { AreMarks ledgers.old ends.now }
    ensures rises { OnOk result (Rises ends.now ledgers.old ledgers.new
        log.old.items log.new.items) }
    ensures alike { Alike ledgers.old ledgers.new }
    ensures marks { AreMarks ledgers.old log.old.items → AreMarks ledgers.old log.new.items }
{
    for end in ends {
        let ledger = &mut ledgers[end.memory as usize];
        log.push(LedgerMark {
            memory: end.memory,
            state: ledger.mark(),
        })?;
        ledger.join_max(&end.state);
    }
    Ok(())
}

/// `grant_at` of a vector.
pub fn grant_in(
    ledgers: &mut Vec<CountLedger>,
    memory: u32,
    bank: u32,
    count: u32,
) -> Result<Token, Full>
    requires memory { memory < length ledgers.old.items }
    requires bank { bank < ledger_banks ledgers.old.items memory }
    ensures { GrantsAt ledgers.old.items ledgers.new.items memory bank count result }
{
    grant_at(ledgers.as_mut_slice(), memory, bank, count)
}

/// `go_back` of a vector, to where a log was so long, and the log is cut there.
pub fn back_to(ledgers: &mut Vec<CountLedger>, log: &mut Vec<LedgerMark>, begun: usize)
    requires begun { begun ≤ length log.old.items }
    requires marks { AreMarks ledgers.old.items log.old.items }
    ensures back { ledgers.new.items ≡ undone_ledgers (drop begun log.old.items) ledgers.old.items }
    ensures alike { Alike ledgers.old.items ledgers.new.items }
    ensures log { log.new.items ≡ take begun log.old.items }
{
    go_back(ledgers.as_mut_slice(), &log.as_slice()[begun..]);
    log.truncate(begun);
}

/// `rise` of a vector.
pub fn rise_in(
    ledgers: &mut Vec<CountLedger>,
    ends: &[LedgerMark],
    log: &mut Vec<LedgerMark>,
) -> Result<(), NoMemory>
    requires { AreMarks ledgers.old.items ends.now }
    ensures rises { OnOk result
        (Rises ends.now ledgers.old.items ledgers.new.items log.old.items log.new.items) }
    ensures alike { Alike ledgers.old.items ledgers.new.items }
    ensures marks { AreMarks ledgers.old.items log.old.items
        → AreMarks ledgers.old.items log.new.items }
{
    rise(ledgers.as_mut_slice(), ends, log)
}

/// A ledger for each memory of a table, in which nothing is spent.
pub fn ledgers_of(alloc: Global, table: &[MemEntry]) -> Result<Vec<CountLedger>, NoMemory>
    requires { AllByRecursion IsMemory table.now }
    ensures { IfOk result (λ l. l.items ≡ map fresh table.now) }
{
    let mut ledgers = Vec::new(alloc);
    for entry in table {
        ledgers.push(CountLedger::new(64, entry.shape.ports as u32))?;
    }
    Ok(ledgers)
}
