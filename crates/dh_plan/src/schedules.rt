//! Schedules and bindings: the clock of each operation, and the ports and multipliers that operations use.

use dh_base::Items;

/// What a schedule is limited to; 0 is no limit.
#[derive(Clone, Copy, PartialEq, Eq)]
pub struct Limits {
    /// Multiplications in one clock of one block.
    pub multipliers: u32,
    /// Operators that follow one another within one clock.
    pub chain: u32,
}

/// When each operation is done, in clocks of its step from 0, and how long each block is.
#[derive(Drop)]
pub struct Schedule {
    /// A clock for each operation of the plan.
    pub clock_of: Items<u128>,
    /// A length in clocks for each block.
    pub length: Items<u128>,
}

/// Which ports and which multiplier each operation of the plan uses.
#[derive(Drop)]
pub struct Binding {
    /// For each operation, a port of each bank that it can reach: bank and port.
    pub ports: Items<Items<(u32, u32)>>,
    /// For each operation the number of its multiplier; 0 of other operations.
    pub unit: Items<u64>,
}
