//! The values of expressions, and the accesses that they make.

ghost use Rattle.std.specs.Prelude.{◌≡◌, ◌+◌, ◌<◌, ◌≤◌, ◌^◌, IfOk, length, slice_set};
ghost use Rattle.std.specs.List.{AllByRecursion};
ghost use Rattle.dh_base.specs.declared.outcomes.FaultKind.TheVariants.{OutOfRange};
ghost use Rattle.dh_base.specs.declared.outcomes.Outcome.TheVariants.{Faulted, Stuck};
ghost use Rattle.dh_code.specs.declared.evaluating.StepStop.TheVariants as stop;
ghost use Rattle.dh_tree.specs.Elements.{banks_of};
ghost use Rattle.dh_value.specs.declared.operators.Op.TheVariants as op;
ghost use Rattle.dh_value.specs.Operations.{AreIntegers, Suits, binary_of};
ghost use Rattle.dh_value.specs.Words.{IsInteger, IsWord};
ghost use Rattle.dh_extents.specs.Extents.{AreDims};
ghost use Rattle.dh_code.specs.Banks.{HasBank, LiesInRow, first_bank, all_banks};
ghost use Rattle.dh_code.specs.Operated.{IsValidAccess, IsValidOperand, IsOperation, combined_word, converted_word, events_after, kind_of_operand, mask_of, sight};
ghost use Rattle.dh_code.specs.Spent.{StayUsed};
ghost use Rattle.dh_code.specs.Scenes.{IsScene, AccessLeadsTo, ShowsAfter, SpendsMore, begun_in, scene_events, one_given, spread_element, element_read, read_events, read_given};

use crate::codes::{Access, Code, CodeOperation, Operand, Target};
use crate::operands::{View, element_of, mask_at, value_at};
use crate::passing::locate_through;
use crate::spending::{Bank, read_row};
use crate::spots::{Element, Spread, index_below, locate};
use dh_base::{FaultKind, NoMemory, Outcome, Place};
use dh_extents::{measure, place_in_bank};
use dh_tree::{Dim, MemEntry};
use dh_value::{Kind, Op, Word, binary, cast, number};
use std::alloc::{AllocError, AllocFailed, Global};

/// Why a step ends early.
#[derive(Clone, Copy)]
pub enum StepStop {
    /// A fault, or an access with which a bank spends more than its ports.
    At(Outcome),
    /// Want of memory.
    NoMemory,
}

impl From<NoMemory> for StepStop {
    ghost from_gives = { λ _ e. e ≡ stop.NoMemory };

    fn from(_refused: NoMemory) -> StepStop {
        StepStop::NoMemory
    }
}

impl From<AllocError> for StepStop {
    ghost from_gives = { λ _ e. e ≡ stop.NoMemory };

    fn from(_refused: AllocError) -> StepStop {
        StepStop::NoMemory
    }
}

impl<T: Drop> From<AllocFailed<T>> for StepStop {
    ghost from_gives = { λ _ e. e ≡ stop.NoMemory };

    fn from(_refused: AllocFailed<T>) -> StepStop {
        StepStop::NoMemory
    }
}

/// What stays as it is during a step.
#[derive(Clone, Copy)]
pub struct StepContext<'a> {
    /// Where lists of paths are made.
    pub alloc: Global,
    /// The code.
    pub code: &'a Code,
    /// The memories.
    pub entries: &'a [MemEntry],
    /// The number of the first bank of each.
    pub firsts: &'a [usize],
    /// Their contents as the step began.
    pub memories: &'a [Vec<u64>],
    /// The number of the step, from 1.
    pub step: u64,
}

/// A fault where an index is out of range.
pub fn out_of_range(place: Place) -> StepStop
    ensures { result ≡ stop.At (Faulted OutOfRange place) }
{
    StepStop::At(Outcome::Faulted {
        kind: FaultKind::OutOfRange,
        place,
    })
}

/// The outcome where an access at this place spends more than the ports of a memory's bank.
pub fn stuck(place: Place, element: Element) -> StepStop
    requires memory { element.memory < 2 ^ 32 }
    requires bank { element.bank < 2 ^ 32 }
    ensures { result ≡ stop.At (Stuck element.memory element.bank place) }
{
    StepStop::At(Outcome::Stuck {
        memory: element.memory as u32,
        bank: element.bank as u32,
        place,
    })
}

/// The place of a bank among those of all memories.
pub fn bank_at(scene: &StepContext<'_>, element: Element) -> usize
    requires scene { IsScene scene.now }
    requires there { HasBank scene.now.entries.now element.memory element.bank }
    ensures place { result ≡ first_bank scene.now.entries.now element.memory + element.bank }
    ensures within { result < all_banks scene.now.entries.now }
{
    scene.firsts[element.memory] + element.bank as usize
}

/// Where the element lies in this row of a bank; None where there is none.
fn in_row(dims: &[Dim], bank: u64, row: i128) -> Option<Spread>
    requires dims { AreDims dims.now }
    requires bank { bank < banks_of dims.now }
    ensures { LiesInRow dims.now bank row result }
{
    match index_below(row, measure(dims).rows) {
        Some(row) => Some(Spread {
            bank,
            row,
            position: place_in_bank(dims, bank, row),
        }),
        None => None,
    }
}

/// The element of a memory that lies there.
pub fn element_at(memory: usize, spread: Spread) -> Element
    ensures { result ≡ spread_element memory spread }
{
    Element {
        memory,
        bank: spread.bank,
        row: spread.row,
        position: spread.position,
    }
}

/// Where an access of any target leads; None where it is out of range.
#[inline(never)]
fn reached_otherwise(
    scene: &StepContext<'_>,
    slots: &[u64],
    given: &[u64],
    ranks: &[u32],
    access: &Access,
) -> Option<Spread>
    requires scene { IsScene scene.now }
    requires access { IsValidAccess scene.now.entries.now access.now }
    ensures { AccessLeadsTo scene.now (sight slots.now given.now ranks.now) access.now result }
{
    let view = View {
        slots,
        given,
        ranks,
    };
    match &access.target {
        Target::Indices { operands } => {
            let dims = scene.entries[access.memory].shape.dims.as_slice();
            locate(&view, dims, operands.as_slice())
        }
        Target::Row { bank, row } => {
            let dims = scene.entries[access.memory].shape.dims.as_slice();
            in_row(dims, *bank, number(value_at(&view, row.content())))
        }
        Target::Through {
            views,
            count,
            operands,
        } => {
            let dims = scene.entries[access.memory].shape.dims.as_slice();
            let links = views.content().as_slice();
            let operands = operands.content().as_slice();
            locate_through(&view, dims, links, *count, operands)
        }
    }
}

/// Where an access leads; None where it is out of range. (Most are by indices of a memory: what the
/// others take stands apart.)
#[inline(always)]
pub fn reached(
    scene: &StepContext<'_>,
    slots: &[u64],
    given: &[u64],
    ranks: &[u32],
    access: &Access,
) -> Option<Spread>
    requires scene { IsScene scene.now }
    requires access { IsValidAccess scene.now.entries.now access.now }
    ensures { AccessLeadsTo scene.now (sight slots.now given.now ranks.now) access.now result }
{
    match &access.target {
        Target::Indices { operands } => {
            let view = View {
                slots,
                given,
                ranks,
            };
            let dims = scene.entries[access.memory].shape.dims.as_slice();
            locate(&view, dims, operands.as_slice())
        }
        Target::Row { .. } => reached_otherwise(scene, slots, given, ranks, access),
        Target::Through { .. } => reached_otherwise(scene, slots, given, ranks, access),
    }
}

/// Takes the port that a read of an element needs, where it needs one.
fn take(
    scene: &StepContext<'_>,
    banks: &mut [Bank],
    place: Place,
    element: Element,
) -> Result<(), StepStop>
    requires scene { IsScene scene.now }
    requires there { HasBank scene.now.entries.now element.memory element.bank }
    requires long { length banks.old ≡ all_banks scene.now.entries.now }
    ensures long { length banks.new ≡ length banks.old }
    ensures used { StayUsed scene.now.step banks.old banks.new }
    ensures spends { SpendsMore scene.now banks.old result banks.new (element_read place element) }
{
    let at = bank_at(scene, element);
    let ports = scene.entries[element.memory].shape.ports;
    if read_row(&mut banks[at], ports, scene.step, element.row)? {
        Ok(())
    } else {
        Err(stuck(place, element))
    }
}

/// Finds and reads the element of an access, and keeps its bits under the number of the operation.
/// (An answer that is an error or the bits would be moved in parts, which takes long.)
fn read(
    scene: &StepContext<'_>,
    slots: &[u64],
    ranks: &[u32],
    given: &mut [u64],
    banks: &mut [Bank],
    at: usize,
    access: &Access,
) -> Result<(), StepStop>
    requires scene { IsScene scene.now }
    requires access { IsValidAccess scene.now.entries.now access.now }
    requires long { length banks.old ≡ all_banks scene.now.entries.now }
    ensures long { length banks.new ≡ length banks.old }
    ensures used { StayUsed scene.now.step banks.old banks.new }
    ensures room { length given.new ≡ length given.old }
    ensures gives { IfOk result (λ _. given.new
        ≡ read_given scene.now slots.now given.old ranks.now at access.now) }
    ensures spends { SpendsMore scene.now banks.old result banks.new
        (read_events scene.now (sight slots.now given.old ranks.now) access.now) }
{
    let Some(spread) = reached(scene, slots, given, ranks, access) else {
        return Err(out_of_range(access.place));
    };
    let element = element_at(access.memory, spread);
    take(scene, banks, access.place, element)?;
    let bits = element_of(scene.memories, element.memory, element.position);
    set_number(given, at, bits);
    Ok(())
}

/// 1 where the left word is the smaller, else 0. (Words of kinds without a sign compare as their
/// bits do.)
fn smaller(left: Word, right: Word) -> u64
    requires left { IsWord left }
    requires right { IsWord right }
    requires alike { AreIntegers left.kind right.kind }
    ensures { result ≡ (binary_of op.Lt left right).bits }
{
    match left.kind {
        Kind::Bool => binary(Op::Lt, left, right).bits,
        Kind::Unsigned(_) => u64::from(left.bits < right.bits),
        Kind::Signed(_) => binary(Op::Lt, left, right).bits,
    }
}

/// 1 where the left word is not the greater, else 0.
fn at_most(left: Word, right: Word) -> u64
    requires left { IsWord left }
    requires right { IsWord right }
    requires alike { AreIntegers left.kind right.kind }
    ensures { result ≡ (binary_of op.Le left right).bits }
{
    match left.kind {
        Kind::Bool => binary(Op::Le, left, right).bits,
        Kind::Unsigned(_) => u64::from(left.bits <= right.bits),
        Kind::Signed(_) => binary(Op::Le, left, right).bits,
    }
}

/// The bits that an operator gives. Each operator stands in an arm of its own, so that the code of
/// its operation can be put there. (The mask is that of the left operand's kind, with which the
/// lowest bits are found in one step.)
#[inline(always)]
pub fn operated(op: Op, left: Word, right: Word, mask: u64) -> u64
    requires left { IsWord left }
    requires right { IsWord right }
    requires suits { Suits op left.kind right.kind }
    requires mask { mask ≡ mask_of left.kind }
    ensures { result ≡ (binary_of op left right).bits }
{
    match op {
        Op::Add => left.bits.wrapping_add(right.bits) & mask,
        Op::Sub => left.bits.wrapping_sub(right.bits) & mask,
        Op::Mul => left.bits.wrapping_mul(right.bits) & mask,
        Op::And => binary(Op::And, left, right).bits,
        Op::Or => binary(Op::Or, left, right).bits,
        Op::Xor => binary(Op::Xor, left, right).bits,
        Op::Shl => binary(Op::Shl, left, right).bits,
        Op::Shr => binary(Op::Shr, left, right).bits,
        Op::Lt => smaller(left, right),
        Op::Gt => smaller(right, left),
        Op::Le => at_most(left, right),
        Op::Ge => at_most(right, left),
        Op::Eq => binary(Op::Eq, left, right).bits,
        Op::Ne => binary(Op::Ne, left, right).bits,
        Op::Both => binary(Op::Both, left, right).bits,
        Op::Either => binary(Op::Either, left, right).bits,
    }
}

/// The bits of what any operator gives on two operands.
#[inline(never)]
pub fn combined_otherwise(
    slots: &[u64],
    given: &[u64],
    ranks: &[u32],
    op: Op,
    left: &Operand,
    right: &Operand,
) -> u64
    requires left { IsValidOperand left.now }
    requires right { IsValidOperand right.now }
    requires suits { Suits op (kind_of_operand left.now) (kind_of_operand right.now) }
    ensures { result ≡
        (combined_word (sight slots.now given.now ranks.now) op left.now right.now).bits }
{
    let view = View {
        slots,
        given,
        ranks,
    };
    let a = value_at(&view, left);
    let b = value_at(&view, right);
    operated(op, a, b, mask_at(left))
}

/// The bits of what an operator gives on two operands. (Operators that look at signs and widths stand
/// apart, so that few registers are needed.)
#[inline(always)]
fn combined(
    slots: &[u64],
    given: &[u64],
    ranks: &[u32],
    op: Op,
    left: &Operand,
    right: &Operand,
) -> u64
    requires left { IsValidOperand left.now }
    requires right { IsValidOperand right.now }
    requires suits { Suits op (kind_of_operand left.now) (kind_of_operand right.now) }
    ensures { result ≡
        (combined_word (sight slots.now given.now ranks.now) op left.now right.now).bits }
{
    let view = View {
        slots,
        given,
        ranks,
    };
    let a = value_at(&view, left);
    let b = value_at(&view, right);
    let mask = mask_at(left);
    match op {
        Op::Add => operated(Op::Add, a, b, mask),
        Op::Sub => operated(Op::Sub, a, b, mask),
        Op::Mul => operated(Op::Mul, a, b, mask),
        Op::And => operated(Op::And, a, b, mask),
        Op::Or => operated(Op::Or, a, b, mask),
        Op::Xor => operated(Op::Xor, a, b, mask),
        Op::Eq => operated(Op::Eq, a, b, mask),
        Op::Ne => operated(Op::Ne, a, b, mask),
        Op::Both => operated(Op::Both, a, b, mask),
        Op::Either => operated(Op::Either, a, b, mask),
        Op::Shl => combined_otherwise(slots, given, ranks, op, left, right),
        Op::Shr => combined_otherwise(slots, given, ranks, op, left, right),
        Op::Lt => combined_otherwise(slots, given, ranks, op, left, right),
        Op::Gt => combined_otherwise(slots, given, ranks, op, left, right),
        Op::Le => combined_otherwise(slots, given, ranks, op, left, right),
        Op::Ge => combined_otherwise(slots, given, ranks, op, left, right),
    }
}

/// The bits of an operand in an integer kind.
fn converted(slots: &[u64], given: &[u64], ranks: &[u32], from: &Operand, to: Kind) -> u64
    requires to { IsInteger to }
    requires from { IsValidOperand from.now }
    ensures { result ≡
        (converted_word (sight slots.now given.now ranks.now) from.now to).bits }
{
    let view = View {
        slots,
        given,
        ranks,
    };
    cast(value_at(&view, from), to).bits
}

/// Sets a number of a list, where there is one.
pub fn set_number(list: &mut [u64], at: usize, number: u64)
    ensures { list.new ≡ slice_set list.old at number }
{
    if at < list.len() {
        list[at] = number;
    }
}

/// Does the operation of a number.
fn perform(
    scene: &StepContext<'_>,
    slots: &[u64],
    ranks: &[u32],
    given: &mut [u64],
    banks: &mut [Bank],
    at: usize,
    operation: &CodeOperation,
) -> Result<(), StepStop>
    requires scene { IsScene scene.now }
    requires operation { IsOperation scene.now.entries.now operation.now }
    requires long { length banks.old ≡ all_banks scene.now.entries.now }
    ensures long { length banks.new ≡ length banks.old }
    ensures used { StayUsed scene.now.step banks.old banks.new }
    ensures room { length given.new ≡ length given.old }
    ensures gives { IfOk result (λ _. given.new
        ≡ one_given scene.now slots.now given.old ranks.now at operation.now) }
    ensures spends { SpendsMore scene.now banks.old result banks.new
        (scene_events scene.now (sight slots.now given.old ranks.now) operation.now) }
{
    match operation {
        CodeOperation::Binary { op, left, right } => {
            let bits = combined(slots, given, ranks, *op, left, right);
            set_number(given, at, bits);
            Ok(())
        }
        CodeOperation::Convert { from, to } => {
            let bits = converted(slots, given, ranks, from, *to);
            set_number(given, at, bits);
            Ok(())
        }
        CodeOperation::Read { access } => read(scene, slots, ranks, given, banks, at, access),
    }
}

/// Does operations in order, of which the first one has this number.
pub fn operate(
    scene: &StepContext<'_>,
    slots: &[u64],
    ranks: &[u32],
    given: &mut [u64],
    banks: &mut [Bank],
    at: usize,
    operations: &[CodeOperation],
) -> Result<(), StepStop>
    requires scene { IsScene scene.now }
    requires operations { AllByRecursion (IsOperation scene.now.entries.now) operations.now }
    requires room { at + length operations.now ≤ length given.old }
    requires long { length banks.old ≡ all_banks scene.now.entries.now }
    ensures long { length banks.new ≡ length banks.old }
    ensures used { StayUsed scene.now.step banks.old banks.new }
    ensures room { length given.new ≡ length given.old }
    ensures gives { IfOk result (λ _.
        ShowsAfter scene.now slots.now given.old given.new ranks.now at operations.now) }
    ensures spends { SpendsMore scene.now banks.old result banks.new
        (events_after (begun_in scene.now) (sight slots.now given.old ranks.now)
        at operations.now) }
{
    for (i, operation) in operations.iter().enumerate() {
        perform(scene, slots, ranks, given, banks, at + i, operation)?;
    }
    Ok(())
}
