//! The operations of a plan and the blocks that they make up.
//! Operations are numbered over the whole plan, and a value goes by the number of the operation that gives it: in
//! a block always an earlier one of the same block.

ghost use Rattle.std.specs.Prelude.{◌≡◌, IfOk};

use dh_base::{Items, NoMemory};
use dh_value::{Kind, Op, Word};
use std::alloc::Global;
use std::marker::Model;

/// A view on the way of an access to its memory.
#[derive(Drop)]
pub struct ReachStep {
    /// Its number in the plan's views.
    pub view: u32,
    /// The values of its offsets, one for each dimension of its parent; none of a shrink or split view.
    pub offsets: Items<u64>,
}

/// What an operation accesses: the element of its indices, through its views, or a row of a bank.
#[derive(Drop)]
pub struct Reach {
    /// The access of the program of which this is a copy, by its number in order of evaluation.
    pub access: u32,
    /// The memory, by its number in the table.
    pub memory: u32,
    /// The values of the indices; without meaning where there is a row.
    pub indices: Items<u64>,
    /// The views on the way, the named one first; none where there is a row.
    pub steps: Items<ReachStep>,
    /// The banks that it can reach, each with the operation's place there among the copies of its access.
    pub banks: Items<(u32, u32)>,
    /// The value that is the number of the bank; None where there is only one bank to reach.
    pub select: Option<u64>,
    /// The value that is the number of the row; None where the element is named by indices.
    pub row: Option<u64>,
}

/// An access in memory of its own, so that an operation stays small: most operations have none. Unlike a `Box`,
/// which a clause sees with its pointer and its allocator, it is for a contract the access and nothing more.
#[derive(Drop)]
pub struct ApartReach {
    inner: Box<Reach>,
}

impl Model for ApartReach {
    ghost use Rattle.dh_plan.specs.declared.operations.Reach.{Reach};

    ghost Value = { Reach };

    ghost view = { λ a. a.inner.value };
}

impl ApartReach {
    /// The access in memory of its own.
    ///
    /// # Errors
    ///
    /// `NoMemory` where an allocation was refused.
    pub fn new(alloc: Global, reach: Reach) -> Result<ApartReach, NoMemory>
        ensures { IfOk result (λ kept. kept ≡ reach) }
    {
        let inner = Box::new(alloc, reach)?;
        Ok(ApartReach { inner })
    }

    /// The access.
    pub fn content(&self) -> &Reach
        ensures { result.now ≡ self.now }
    {
        self.inner.as_ref()
    }
}

/// What an operation does. Values are the numbers of earlier operations of the block.
#[derive(Drop)]
pub enum OperationForm {
    /// Gives this word.
    Constant { word: Word },
    /// Gives what the register held as the step began.
    Old { register: u64 },
    /// Gives what an operator makes of two values.
    Compute { op: Op, left: u64, right: u64 },
    /// Gives the value modulo 2^width of an integer kind.
    Convert { inner: u64, to: Kind },
    /// Gives the one value where the test is true, else the other.
    Select { test: u64, yes: u64, no: u64 },
    /// Has this fault where the value is false.
    Check { ok: u64, fault: u32 },
    /// Has this fault where the access is out of range.
    Probe { access: ApartReach, fault: u32 },
    /// Gives the element as it was when the step began.
    Read { access: ApartReach },
    /// Has the element be this value after the step.
    Write { access: ApartReach, value: u64 },
    /// Has the register be this value after the step.
    Set { register: u64, value: u64 },
}

/// An operation. Where its guard is false it does nothing, and its value is 0 or false.
#[derive(Drop)]
pub struct Operation {
    /// The value on which it depends whether it is done; None where it always is.
    pub guard: Option<u64>,
    /// What it does.
    pub form: OperationForm,
}

/// What one straight phase does: its operations in order.
#[derive(Drop)]
pub struct PlanBlock {
    /// The operations, numbered on from those of the blocks before.
    pub operations: Items<Operation>,
}
