//! What blocks of a plan touch and charge: laws on what was put down for commands, for no step. Which registers a block
//! sees and sets; that accesses of a plan meet as those of the program; that a bank is read and written as often as there
//! are distinct keys of accesses on it; and so that no access of a block or of a plan charges a bank more than in the
//! program. Stands on `dh_laid`, `dh_blocks` and below.
#![tactic(auto)]

mod laws;

pub use laws::{
    accesses_have_memories, blocks_charge_less, leaders_are_keys, led_uses_charge,
    made_blocks_touch, plans_meet_as_programs,
};
