//! The net of a plan: what its wires, ports and registers stand for, clock by clock.
//! Takes a plan, its graph, schedule and binding, and is to give a net that plays the plan. So far it has what such a
//! net is (`IsNetOf`) and that it plays the plan (`net_plays` of proofs/NetSimulates), by laws of one clock: wires show
//! the values of blocks as these are there, ports serve their users one at a time and keep what was read, writes come
//! by ports in the last clock, and states follow the places of the plan. `IsNetOf` speaks for each relation between
//! registers and places, so no contract names the theorem but at instances: nets of one store and of one read.
//! Stands on `dh_plan` and `dh_net`.
#![tactic(auto)]

mod examples;
mod laws;

pub use examples::{
    a_picked_read_has_its_net, a_picked_read_is_played, a_store_has_its_net, a_store_is_played,
};
pub use laws::{
    clocks_keep_fits, clocks_keep_reads, clocks_write_steps, ports_have_one_user,
    spots_follow_places, step_ends_are_shown, wires_show_values, writes_come_by_ports,
};
