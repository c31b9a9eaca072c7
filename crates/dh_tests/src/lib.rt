//! Tests of the public calls, from a text to an accepted program, and from there to its run, its net and its
//! report; of the top call; and of the files and the output of the system. Each crate is proved alone; what
//! stands here is what no contract says: that a call answers where memory is ample, also at a large size, and
//! what values, nets, texts and runs that were worked out by hand come to. `conformance/` tries whole files on
//! the built program.
#![tactic(auto)]

#[cfg(test)]
mod comparing;
#[cfg(test)]
mod engines;
#[cfg(test)]
mod lexing;
#[cfg(test)]
mod nets;
#[cfg(test)]
mod outside;
#[cfg(test)]
mod passes;
#[cfg(test)]
mod phase_lengths;
#[cfg(test)]
mod phasing;
#[cfg(test)]
mod plan_sizes;
#[cfg(test)]
mod programs;
#[cfg(test)]
mod running;
#[cfg(test)]
mod schedules;
#[cfg(test)]
mod system;
#[cfg(test)]
mod texts;
#[cfg(test)]
mod view_maps;
