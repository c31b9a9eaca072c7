//! The last joint of the compiler's passes: the net of a plan of one thread, of its data path, its control and the
//! drivers of its ports.
//! Stands on `dh_control` and `dh_datapath`.
#![tactic(auto)]

mod assembling;
mod beginning;
mod building;
mod drivers;
mod joining;
mod laws;
mod making;
mod memories;
mod sizing;

pub use assembling::{list_nexts, list_registers};
pub use beginning::{begin, list_initials};
pub use building::{Parts, ShownWires, Sizes, push_parts};
pub use drivers::{list_drivers, push_uses};
pub use joining::{Joints, build_thread, net_drivers, net_registers, start_circuit};
pub use laws::{
    built_nets_are_nets, drivers_serve_users, made_nets_are_wired, one_group_is_one_thread,
    shown_plans_suit,
};
pub use making::build;
pub use memories::list_memories;
pub use sizing::{all_widths, greatest, list_widths, size_up};
