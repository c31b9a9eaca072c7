//! The graph of states that does the phases of a plan. Takes a plan that is formed (`IsFormed`): its nodes name blocks
//! and registers that are there. Gives a graph whose ways, whatever the registers hold, lead where the plan goes on, to
//! states that are there, and that says of each state its group and of each group its parent (`IsGraphOf`).
//! A first walk measures: how many states and groups each node takes, and how it begins. So a second walk makes the
//! states in text order, each with its way behind it, and no way is filled in later.
//! The walks are linear in the plan. A way is a chain: one test at most, and behind it one count for each counted
//! loop whose last phase this is; so the graph is linear but for such chains, each no longer than loops are nested.
#![tactic(auto)]

mod deciding;
mod flowing;
mod measuring;
mod walking;

pub use flowing::flow;
