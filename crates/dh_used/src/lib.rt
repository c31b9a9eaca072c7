//! How often the operations of a plan read, write and probe each access of its program: with each of its keys once, and
//! at each of its paths. Laws on what `dh_laid` tells of blocks, joined with what the program tells of its accesses.
#![tactic(auto)]

mod laws;

pub use laws::{
    blocks_use_as_made, made_plans_aim_as_the_source, made_plans_reach_the_source,
    made_plans_use_by_keys, plans_use_by_keys, sites_are_of_the_source,
};
