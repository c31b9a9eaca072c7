//! Joins the drivers of a port of a net in cells, so that few are left: one that reads and one that writes. The net
//! does what it did, clock by clock, as long as no port clashes.
//! Stands on `dh_net`; in its proofs on `dh_cells`, whose lemmas tell of cells that are added, and on `dh_sim`, whose
//! lemmas tell that states go on fitting.
#![tactic(auto)]

mod choices;
mod joining;
mod laws;
mod ports;

pub use joining::join_drivers;
pub use laws::joined_nets_play;
