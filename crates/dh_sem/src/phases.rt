//! The phases of a program, as a run does them.

use dh_code::FlatExpression;

/// A `for`.
#[derive(Clone, Copy)]
pub struct Turns {
    /// The slot of the iterator's first copy.
    pub first: u32,
    /// Of how many loops round it each copy has a slot.
    pub depth: u32,
    /// The iterator's first value.
    pub low: u64,
    /// The copies of the body in a turn.
    pub factor: u64,
    /// How many turns there are.
    pub count: u64,
    /// The phases of the body: the first of them.
    pub body: Option<usize>,
    /// The number of the paths inside it.
    pub inside: usize,
}

/// A phase.
#[derive(Clone, Copy)]
pub enum PhaseForm {
    /// Commands that are done in one step, from the first one on.
    Straight {
        /// Its number.
        list: Option<usize>,
    },
    /// A `for`.
    Turns {
        /// Its turns.
        turns: Turns,
    },
    /// A `while`.
    Loop {
        /// The test.
        test: FlatExpression,
        /// The phases of the body.
        body: Option<usize>,
    },
    /// An `if` of which the arms are not straight.
    Choice {
        /// The test.
        test: FlatExpression,
        /// The phases of the arm that is done where it holds.
        chosen: Option<usize>,
        /// Those of the arm that is done where it does not.
        other: Option<usize>,
    },
}

/// A phase, and the rest of its list. Every list begins at an earlier number than those that hold
/// it.
#[derive(Clone, Copy)]
pub struct HeldPhase {
    /// The phase.
    pub form: PhaseForm,
    /// The number of the phase behind it, if there is one.
    pub next: Option<usize>,
    /// The number of the paths at which it is done.
    pub paths: usize,
}

/// What is still to come, in front of the frames below.
#[derive(Clone, Copy)]
pub enum Frame {
    /// A list of phases from this one on; None where nothing is left of it.
    List {
        /// Its number.
        list: Option<usize>,
    },
    /// The rest of a turn is done: the next turns of a `for`.
    Turn {
        /// The number of the phase.
        at: usize,
        /// The number of the turn, from 0.
        turn: u64,
    },
    /// The test of a `while` is done.
    Test {
        /// The number of the phase.
        at: usize,
    },
    /// The body of a `while` is done, and its test comes again.
    Again {
        /// The number of the phase.
        at: usize,
    },
    /// The test of an `if` is done.
    Pick {
        /// The number of the phase.
        at: usize,
    },
}
