//! The operations of a block, one after the other.

ghost use Rattle.std.specs.Prelude.{◌≡◌, IfOk, OnOk};
ghost use Rattle.std.specs.List.{AllByRecursion};
ghost use Rattle.dh_tree.specs.Shapes.{IsProgramTable};
ghost use Rattle.dh_tree.specs.ViewShapes.{IsViewMap};
ghost use Rattle.dh_rows.specs.MadeOperations.{IsMade};
ghost use Rattle.dh_address.specs.Pieces.{IsPiece, IsProbeValue, IsProbed, IsReadMade, IsWriteMade, false_behind, false_made, new_takes};
ghost use Rattle.dh_address.specs.SeenAround.{around_first, around_seen};
ghost use Rattle.dh_address.specs.SeenBlocks.{HasPieces, KnowsMore};

use crate::aiming::aim_reach;
use crate::passing::pass_reach;
use crate::ranging::{OldBlock, check_ranges, guard_ranges};
use crate::renumbering::Renumbering;
use crate::results::kind_given;
use dh_base::{Items, NoMemory};
use dh_plan::{Operation, OperationForm, Reach};
use dh_rows::{OperationList, push_compute};
use dh_value::{Kind, Op, Word};

/// The values that an access takes, at their new numbers.
fn new_takes(old: &OldBlock<'_>, known: &Renumbering, reach: &Reach) -> Result<Items<u64>, NoMemory>
    ensures { IfOk result (λ v. v ≡ new_takes (around_seen old.now known.now) reach.now) }
{
    let mut values = known.taken(old.alloc, reach)?;
    if let Some(select) = known.maybe(reach.select) {
        values.push(select)?;
    }
    if let Some(row) = known.maybe(reach.row) {
        values.push(row)?;
    }
    Ok(values)
}

/// Adds a value that is false as this one is, but not there before another value is.
fn push_false_behind(list: &mut OperationList, so_far: u64, value: u64) -> Result<u64, NoMemory>
    ensures { IfOk result (λ n. IsMade list.new n (false_behind list.old so_far value)) }
{
    let differs = push_compute(list, Op::Ne, value, value)?;
    push_compute(list, Op::Either, so_far, differs)
}

/// Adds a value that is false, and there once all these values are.
fn push_false(list: &mut OperationList, guard: Option<u64>, values: &[u64]) -> Result<u64, NoMemory>
    ensures { IfOk result (λ n. IsMade list.new n (false_made list.old guard values.now)) }
{
    let word = Word {
        kind: Kind::Bool,
        bits: 0,
    };
    let mut so_far = list.push(None, OperationForm::Constant { word })?;
    for value in values {
        so_far = push_false_behind(list, so_far, *value)?;
    }
    list.push(
        guard,
        OperationForm::Compute {
            op: Op::Either,
            left: so_far,
            right: so_far,
        },
    )
}

/// Adds the value of a probe, if some operation takes it.
fn push_probe_value(
    list: &mut OperationList,
    old: &OldBlock<'_>,
    known: &Renumbering,
    guard: Option<u64>,
    reach: &Reach,
) -> Result<u64, NoMemory>
    ensures { IfOk result (IsProbeValue old.now.probed (around_seen old.now known.now) guard
        reach.now list.old list.new) }
{
    if !old.probed {
        return Ok(0);
    }
    let values = new_takes(old, known, reach)?;
    push_false(list, guard, values.as_slice())
}

/// Adds the checks of a probe.
fn push_probe(
    list: &mut OperationList,
    old: &OldBlock<'_>,
    known: &Renumbering,
    guard: Option<u64>,
    reach: &Reach,
    fault: u32,
) -> Result<u64, NoMemory>
    requires table { IsProgramTable old.now.table.now }
    requires views { AllByRecursion IsViewMap old.now.views.now }
    ensures { IfOk result (IsProbed (around_seen old.now known.now) guard reach.now fault
        list.old list.new) }
{
    let passed = pass_reach(list, old, known, reach)?;
    check_ranges(list, guard, fault, passed.ranges.as_slice())?;
    push_probe_value(list, old, known, guard, reach)
}

/// Adds the read of a row, which is done where it is in range.
fn push_read(
    list: &mut OperationList,
    old: &OldBlock<'_>,
    known: &Renumbering,
    guard: Option<u64>,
    reach: &Reach,
) -> Result<u64, NoMemory>
    requires table { IsProgramTable old.now.table.now }
    requires views { AllByRecursion IsViewMap old.now.views.now }
    ensures { IfOk result (IsReadMade (around_seen old.now known.now) guard reach.now
        list.old list.new) }
{
    let passed = pass_reach(list, old, known, reach)?;
    let guard = guard_ranges(list, guard, passed.ranges.as_slice())?;
    let access = aim_reach(list, old, known, reach, passed.indices.as_slice())?;
    list.push(guard, OperationForm::Read { access })
}

/// Adds the write of a row, which is done where it is in range.
fn push_write(
    list: &mut OperationList,
    old: &OldBlock<'_>,
    known: &Renumbering,
    guard: Option<u64>,
    reach: &Reach,
    value: u64,
) -> Result<u64, NoMemory>
    requires table { IsProgramTable old.now.table.now }
    requires views { AllByRecursion IsViewMap old.now.views.now }
    ensures { IfOk result (IsWriteMade (around_seen old.now known.now) guard reach.now value
        list.old list.new) }
{
    let passed = pass_reach(list, old, known, reach)?;
    let guard = guard_ranges(list, guard, passed.ranges.as_slice())?;
    let access = aim_reach(list, old, known, reach, passed.indices.as_slice())?;
    let value = known.number(value);
    list.push(guard, OperationForm::Write { access, value })
}

/// Adds what becomes of an operation. Gives the number that stands for its value.
fn push_piece(
    list: &mut OperationList,
    old: &OldBlock<'_>,
    known: &Renumbering,
    operation: &Operation,
) -> Result<u64, NoMemory>
    requires table { IsProgramTable old.now.table.now }
    requires views { AllByRecursion IsViewMap old.now.views.now }
    ensures { IfOk result (IsPiece (around_seen old.now known.now) operation.now
        list.old list.new) }
{
    let guard = known.maybe(operation.guard);
    match &operation.form {
        OperationForm::Constant { word } => list.push(
            guard,
            OperationForm::Constant { word: *word },
        ),
        OperationForm::Old { register } => {
            list.push(
                guard,
                OperationForm::Old {
                    register: *register,
                },
            )
        }
        OperationForm::Compute { op, left, right } => {
            let left = known.number(*left);
            let right = known.number(*right);
            list.push(
                guard,
                OperationForm::Compute {
                    op: *op,
                    left,
                    right,
                },
            )
        }
        OperationForm::Convert { inner, to } => {
            let inner = known.number(*inner);
            list.push(guard, OperationForm::Convert { inner, to: *to })
        }
        OperationForm::Select { test, yes, no } => {
            let test = known.number(*test);
            let yes = known.number(*yes);
            let no = known.number(*no);
            list.push(guard, OperationForm::Select { test, yes, no })
        }
        OperationForm::Check { ok, fault } => {
            let ok = known.number(*ok);
            list.push(guard, OperationForm::Check { ok, fault: *fault })
        }
        OperationForm::Probe { access, fault } => {
            push_probe(list, old, known, guard, access.content(), *fault)
        }
        OperationForm::Read { access } => push_read(list, old, known, guard, access.content()),
        OperationForm::Write { access, value } => {
            push_write(list, old, known, guard, access.content(), *value)
        }
        OperationForm::Set { register, value } => {
            let value = known.number(*value);
            list.push(
                guard,
                OperationForm::Set {
                    register: *register,
                    value,
                },
            )
        }
    }
}

/// Adds what becomes of one operation more, and notes its number and its kind.
fn push_known(
    list: &mut OperationList,
    old: &OldBlock<'_>,
    registers: &[Kind],
    known: &mut Renumbering,
    operation: &Operation,
) -> Result<(), NoMemory>
    requires table { IsProgramTable old.now.table.now }
    requires views { AllByRecursion IsViewMap old.now.views.now }
    ensures { OnOk result (KnowsMore registers.now old.now known.old known.new operation.now
        list.old list.new) }
{
    let kind = kind_given(old.table, registers, known, &operation.form);
    let number = push_piece(list, old, known, operation)?;
    known.numbers.push(number)?;
    known.kinds.push(kind)?;
    Ok(())
}

/// Adds what becomes of a block, whose first operation has the number `first` in the old plan.
pub fn push_block(
    list: &mut OperationList,
    old: &OldBlock<'_>,
    registers: &[Kind],
    first: u128,
) -> Result<(), NoMemory>
    requires table { IsProgramTable old.now.table.now }
    requires views { AllByRecursion IsViewMap old.now.views.now }
    ensures { OnOk result (HasPieces registers.now (around_first old.now first) list.old list.new) }
{
    let mut known = Renumbering {
        first,
        numbers: Items::new(old.alloc),
        kinds: Items::new(old.alloc),
    };
    for operation in old.operations {
        push_known(list, old, registers, &mut known, operation)?;
    }
    Ok(())
}
