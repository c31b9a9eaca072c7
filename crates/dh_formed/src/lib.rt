//! What a plan asks of the operations that `dh_expressions` puts down, for no step: that each takes earlier values of
//! its block, of the kinds that it needs; how many multiplications, probes, reads and writes there are, and of which
//! registers and elements; and that each value is there at the clock of its level. These are laws on the exact
//! relations that the contracts of `dh_expressions` state (`MadeTerm`, `MadeWrite` and others). Stands on
//! `dh_expressions`, `dh_plan` and below.
#![tactic(auto)]

mod laws;

pub use laws::{
    accesses_are_own, blocks_are_whole, commands_are_formed, elements_are_formed,
    expressions_are_counted, expressions_are_formed, expressions_are_in_time, levels_go_on,
    typed_operands_suit, values_are_counted, values_are_formed, values_are_in_time,
};
