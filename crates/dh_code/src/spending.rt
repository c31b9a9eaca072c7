//! What a bank has spent in a logical step.

ghost use Rattle.std.specs.Prelude.{◌≡◌, length, IfOk};
ghost use Rattle.dh_code.specs.Spent.{rows_now, left_now, ReadsRow, WritesRow, AreUsedBy};

use dh_base::NoMemory;
use std::alloc::Global;

/// What a bank has spent of its ports in the step that last used it.
#[derive(Drop)]
pub struct Bank {
    /// The number of the step, from 1; 0 where no step has used the bank. In every other step it
    /// has all its ports and no row was read.
    pub step: u64,
    /// The distinct rows that were read.
    pub rows: Vec<u64>,
    /// The ports that are left.
    pub left: u64,
}

/// Gives a bank all its ports at its first use in a step.
fn enter(bank: &mut Bank, ports: u64, step: u64)
    ensures step { bank.new.step ≡ step }
    ensures rows { bank.new.rows.items ≡ rows_now bank.old step }
    ensures left { bank.new.left ≡ left_now bank.old ports step }
{
    if bank.step != step {
        bank.step = step;
        bank.left = ports;
        bank.rows.clear();
    }
}

/// Reads a row in a step of a bank with so many ports. False where that needs a port and none is
/// left.
///
/// # Errors
///
/// `NoMemory` where an allocation was refused.
pub fn read_row(bank: &mut Bank, ports: u64, step: u64, row: u64) -> Result<bool, NoMemory>
    ensures step { bank.new.step ≡ step }
    ensures reads { ReadsRow (rows_now bank.old step)
        (left_now bank.old ports step) row result bank.new.rows.items bank.new.left }
{
    enter(bank, ports, step);
    if bank.rows.contains(&row) {
        return Ok(true);
    }
    if bank.left == 0 {
        return Ok(false);
    }
    bank.rows.push(row)?;
    bank.left -= 1;
    Ok(true)
}

/// Writes in a step to a bank with so many ports. False where no port is left.
pub fn write_row(bank: &mut Bank, ports: u64, step: u64) -> bool
    ensures step { bank.new.step ≡ step }
    ensures writes { WritesRow (rows_now bank.old step)
        (left_now bank.old ports step) result bank.new.rows.items bank.new.left }
{
    enter(bank, ports, step);
    if bank.left == 0 {
        return false;
    }
    bank.left -= 1;
    true
}

/// Frees banks of what an interrupted step has spent.
pub fn release(banks: &mut [Bank])
    ensures long { length banks.new ≡ length banks.old }
    ensures unspent { AreUsedBy 0 banks.new }
{
    let count = banks.len();
    for i in 0..count {
        banks[i].step = 0;
    }
}

/// So many banks that no step has used.
pub fn unused(alloc: Global, count: usize) -> Result<Vec<Bank>, NoMemory>
    ensures { IfOk result (λ banks. (length banks.items ≡ count) × AreUsedBy 0 banks.items) }
{
    let mut banks = Vec::new(alloc);
    for _ in 0..count {
        banks.push(Bank {
            step: 0,
            rows: Vec::new(alloc),
            left: 0,
        })?;
    }
    Ok(banks)
}
