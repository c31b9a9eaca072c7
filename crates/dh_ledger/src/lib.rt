//! The ledger of spent ports: how many ports of each bank of one memory a step has used up, as a
//! trait and one form of it, and the token that stands for ports granted.
#![tactic(auto)]

mod count_ledger;
mod ledgers;
mod tokens;

pub use count_ledger::CountLedger;
pub use ledgers::{Full, Ledger};
pub use tokens::{Token, grant};
