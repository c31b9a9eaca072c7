//! In a step that does a block of a plan, whatever registers and memories hold of their kinds, each operation reaches the
//! bank that it lists, with places that tell them apart; accesses that never meet do not both reach one; and writes stand in
//! their order. These are laws on the exact relations that the contracts of `dh_commands` state. Stands on `dh_laid`,
//! `dh_blocks` and below.
#![tactic(auto)]

mod laws;

pub use laws::{
    blocks_keep_banks, blocks_use_what_stands, nodes_keep_banks, reached_plans_keep_banks,
    unmet_accesses_are_not_both_done,
};
