//! The control of a net that is made of a plan of one thread: where the graph stands, the clock of the step, the first
//! fault, what becomes of the registers at the end of a step, and the drivers of what operations read and write.
//! Takes wires of the plan's values, and says of all that it adds what it shows whatever registers and ports hold.
//! A net whose wires show what `IsWired` asks is the net of its plan (`wired_nets_are_nets`), so it plays it.
//! Stands on `dh_cells` and `dh_lower`.
#![tactic(auto)]

mod checking;
mod controlling;
mod driving;
mod ending;
mod gathering;
mod laws;
mod leading;
mod moving;
mod setting;
mod standing;
mod stepping;
mod testing;

pub use controlling::{Activity, Control, ControlRegisters, Results, StepOutcome, push_control};
pub use driving::{Asking, MemoryPorts, Times, push_block_uses};
pub use gathering::{Keyed, gather};
pub use laws::{plans_have_users, wired_nets_are_nets};
pub use leading::{Branch, Counted};
pub use standing::push_numbers;
pub use stepping::{Nexts, Pace, Verdict};
