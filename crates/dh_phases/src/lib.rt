//! The phases of a command: what it does in each of its logical steps. One function, `gather`, gathers them for all who
//! go along them: the interpreter, the compiler, and `phases`, which finds a command by its number. Each command comes
//! with the number of its first access, so that accesses are counted here, too.
#![tactic(auto)]

mod counting;
mod gathering;
mod phasing;

pub use counting::{behind_command, behind_other, behind_term};
pub use gathering::{NumberedCommand, Phase, gather};
pub use phasing::phases;
