//! Plans: blocks, the nodes that say in which order they are done, and which accesses may meet.

use crate::operations::PlanBlock;
use dh_base::{FaultKind, Items, Place};
use dh_tree::{MemTable, ViewMap};
use dh_value::Kind;

/// A phase of the plan. Blocks and registers go by their numbers.
#[derive(Drop)]
pub enum Node {
    /// A block that is done in one logical step.
    Step {
        block: u64,
    },
    /// So many turns of a body. The counter holds the number of the turn, from 0, and 0 outside.
    Turns {
        counter: u64,
        count: u64,
        body: Vec<Node>,
    },
    /// A test block, and where the flag is then true the body and the whole again.
    Loop {
        test: u64,
        flag: u64,
        body: Vec<Node>,
    },
    /// A test block, and where the flag is then true the first arm, else the second.
    Choice {
        test: u64,
        flag: u64,
        then: Vec<Node>,
        other: Vec<Node>,
    },
    /// Lists of nodes side by side, which ends when all have ended.
    Threads {
        lists: Vec<Vec<Node>>,
    },
}

/// Which accesses may meet: two may unless their lowest common node is a One.
#[derive(Drop)]
pub enum Meets {
    /// An access, by its number.
    Access { access: u32 },
    /// Parts that may meet, in order of evaluation.
    All { parts: Vec<Meets> },
    /// Parts of which no two ever meet, in order of evaluation.
    One { parts: Vec<Meets> },
}

/// A plan of a program.
#[derive(Drop)]
pub struct Plan {
    /// The memories.
    pub table: MemTable,
    /// The views on the way of accesses.
    pub views: Items<ViewMap>,
    /// The kinds of the registers, each of which starts with 0 or false.
    pub registers: Items<Kind>,
    /// The blocks.
    pub blocks: Items<PlanBlock>,
    /// The phases in order.
    pub body: Vec<Node>,
    /// Which accesses may meet.
    pub meets: Meets,
    /// What operations with a fault name.
    pub faults: Items<(FaultKind, Place)>,
}

impl Plan {
    /// How many operations all blocks have, for a list that is to have its room at once: no clause tells.
    pub fn operation_count(&self) -> usize {
        let mut count = 0usize;
        for block in self.blocks.as_slice() {
            count = count.saturating_add(block.operations.len());
        }
        count
    }
}
