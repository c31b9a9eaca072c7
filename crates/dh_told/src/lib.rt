//! Laws on the plan of a ready program whole, as `dh_gathering` makes it: what its scene tells; that its blocks are sound and
//! formed, and so is the plan; that each block is as long as its phase; that its steps keep the banks, that it charges and
//! multiplies no more than the program, and that its registers have kinds. Put together: it is a plan of the program
//! (`proofs/PlansMade`), which `dh_unroll` promises.
#![tactic(auto)]

mod laws;

pub use laws::{
    made_blocks_are_as_long_as_their_phases, made_blocks_are_formed,
    made_plans_are_as_long_as_their_phases, made_plans_charge, made_plans_keep_banks,
    made_plans_multiply, placed_blocks_are_sound, ready_plans_are_formed, ready_plans_are_sound,
    ready_plans_last, ready_scenes_are_known, registers_are_sized,
};
