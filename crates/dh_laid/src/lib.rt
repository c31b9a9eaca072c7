//! What a plan asks of the operations that `dh_commands` puts down, for no step: that each takes earlier values of its
//! block, of the kinds that it needs, and that what variables were given stays of the kinds of their registers, also
//! where an arm is taken back; that whole commands are so, with the arms of an `if`; which accesses are theirs, and that
//! no others are touched; that nothing is checked or set; how often they multiply and probe, and how often they read
//! and write; and that all accesses with operations are laid, from block to block. These are
//! laws on the exact relations that the contracts of `dh_commands` state (`MadeCommand` and others). Stands on `dh_commands`, `dh_formed` and below.
#![tactic(auto)]

mod laws;

pub use laws::{
    arms_are_formed, assignments_are_formed, choices_are_formed, paths_are_formed,
    products_are_of_the_program, whole_blocks_use, whole_commands_are_formed,
    whole_commands_are_numbered, whole_commands_are_quiet, whole_commands_have_products,
    whole_commands_lay, whole_commands_probe,
};
