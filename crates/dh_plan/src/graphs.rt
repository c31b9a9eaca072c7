//! The graph of states that does the phases of a plan: one state for each block, and decisions between them.

use dh_base::Items;

/// Where a thread goes on, by the registers after the step.
#[derive(Drop)]
pub enum Decision {
    /// To a state.
    Go {
        state: u64,
    },
    /// By a flag.
    Test {
        flag: u64,
        yes: Box<Decision>,
        no: Box<Decision>,
    },
    /// By a counter: at its last value it becomes 0 and this goes on past the loop, else it becomes one more and
    /// this goes on with the next turn.
    Count {
        counter: u64,
        last: u64,
        again: Box<Decision>,
        past: Box<Decision>,
    },
    /// Begins these groups, and goes on when all of them rest.
    Fork {
        groups: Vec<u64>,
    },
    /// Ends the thread.
    Rest,
}

/// A state: a block, and where to go when it is done.
#[derive(Drop)]
pub struct State {
    /// The block.
    pub block: u64,
    /// The group to which it belongs.
    pub group: u64,
    /// Where to go behind it.
    pub next: Decision,
}

/// A thread: a group of states of which one at most is active.
#[derive(Drop)]
pub struct Group {
    /// The group that forks it; None of the program's own.
    pub parent: Option<u64>,
    /// How it begins.
    pub first: Decision,
    /// Where its parent goes on when all groups of the fork rest; it stands at the first of them.
    pub after: Option<Decision>,
}

/// A graph of states. Group 0 is the program's own.
#[derive(Drop)]
pub struct Graph {
    /// The states.
    pub states: Vec<State>,
    /// The groups.
    pub groups: Vec<Group>,
}
