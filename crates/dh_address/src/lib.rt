//! Makes banks and rows of indices: each access of a plan becomes one of a row of a bank, and each probe the checks
//! of its ranges that can fail, at each view on its way and in its memory.
//! Takes a sound plan; gives a plan without views that does the same (`IsAddressingOf`), in which a read or write is
//! done only where it is in range. Interleaved banks and views are of Nigam and others, PLDI 2020; that ranges and ways
//! are operations of the plan is this project's. Linear in the plan's size.
#![tactic(auto)]

mod addressing;
mod aiming;
mod blocks;
mod cutting;
mod dealing;
mod literals;
mod moving;
mod numbers;
mod operands;
mod passing;
mod probing;
mod ranging;
mod renumbering;
mod results;

pub use addressing::addresses;
