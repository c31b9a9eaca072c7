//! Operations as they are put down: one list for all blocks of a plan, so that the number of an operation is its place.

ghost use Rattle.std.specs.Prelude.{◌≡◌, [], IfOk, length};
ghost use Rattle.dh_rows.specs.MadeOperations.{IsMade, pushed, constant_made, computed, converted, selected};

use dh_base::NoMemory;
use dh_plan::{Operation, OperationForm};
use dh_value::{Kind, Op, Word};
use std::alloc::Global;
use std::marker::Model;

/// The operations so far. A contract sees them as a list.
#[derive(Drop)]
pub struct OperationList {
    inner: Vec<Operation>,
}

impl Model for OperationList {
    ghost use Rattle.std.specs.Prelude.{List};
    ghost use Rattle.dh_plan.specs.declared.operations.Operation.{Operation};

    ghost Value = { List Operation };

    ghost view = { λ l. l.inner.items };
}

impl OperationList {
    /// No operation, with room for so many.
    ///
    /// # Errors
    ///
    /// `NoMemory` where an allocation was refused.
    pub fn with_room(alloc: Global, count: usize) -> Result<OperationList, NoMemory>
        ensures { IfOk result (λ list. list ≡ []) }
    {
        let inner = Vec::with_capacity(alloc, count)?;
        Ok(OperationList { inner })
    }

    /// How many there are: the number of the next one.
    pub fn len(&self) -> usize
        ensures { result ≡ length self.now }
    {
        self.inner.len()
    }

    /// Adds an operation. Gives its number.
    pub fn push(&mut self, guard: Option<u64>, form: OperationForm) -> Result<u64, NoMemory>
        ensures { IfOk result (λ n. IsMade self.new n (pushed self.old guard form)) }
    {
        let number = self.inner.len();
        self.inner.push(Operation { guard, form })?;
        Ok(number as u64)
    }

    /// The operations as a vector. Takes no memory.
    pub fn into_vec(self) -> Vec<Operation>
        ensures { result.items ≡ self }
    {
        self.inner
    }
}

/// Adds a number of an unsigned kind of this width.
pub fn push_constant(list: &mut OperationList, width: u8, number: u64) -> Result<u64, NoMemory>
    ensures { IfOk result (λ n. IsMade list.new n (constant_made list.old width number)) }
{
    let word = Word {
        kind: Kind::Unsigned(width),
        bits: number,
    };
    list.push(None, OperationForm::Constant { word })
}

/// Adds an operator on two values.
pub fn push_compute(
    list: &mut OperationList,
    op: Op,
    left: u64,
    right: u64,
) -> Result<u64, NoMemory>
    ensures { IfOk result (λ n. IsMade list.new n (computed list.old op left right)) }
{
    list.push(None, OperationForm::Compute { op, left, right })
}

/// Adds a value in the unsigned kind of this width.
pub fn push_convert(list: &mut OperationList, inner: u64, width: u8) -> Result<u64, NoMemory>
    ensures { IfOk result (λ n. IsMade list.new n (converted list.old inner width)) }
{
    let to = Kind::Unsigned(width);
    list.push(None, OperationForm::Convert { inner, to })
}

/// Adds the choice of one of two values.
pub fn push_select(list: &mut OperationList, test: u64, yes: u64, no: u64) -> Result<u64, NoMemory>
    ensures { IfOk result (λ n. IsMade list.new n (selected list.old test yes no)) }
{
    list.push(None, OperationForm::Select { test, yes, no })
}
