//! What happens in a program in order of evaluation, for the rules on ports: each access with its
//! Straight phase, the innermost unrolled loop round it and the structure of its indices. Stands on
//! `dh_meets`, `dh_ways`, `dh_meaning`, `dh_viewing`, `dh_tree`, `dh_value` and `dh_base`.
//! docs/LANGUAGE.md tells the rules.
//!
//! `note_stages` counts the phases of commands, and `note_body` notes the events of a body with
//! them, in one walk. `scopes_of` tells where variables are declared; `note_nests` counts phases and tells
//! besides which loops stand round what, and where the variables of the body are declared, in one walk.
#![tactic(auto)]

mod classes;
mod dependence;
mod digests;
mod events;
mod known;
mod nests;
mod noting;
mod rounds;
mod stages;
mod structures;
mod tables;

pub use classes::{Classes, Key};
pub use dependence::{Scope, access_depends, note_ways, scopes_of};
pub use events::{Event, Notes, Site};
pub use known::Known;
pub use nests::{Nests, note_nests};
pub use noting::{NotingContext, Open, note_body};
pub use rounds::loops_round;
pub use stages::note_stages;
pub use structures::{Form, MaybeKind, Structure, Structures};
pub use tables::{get_at, get_number, keep_at, set_at, set_number};
