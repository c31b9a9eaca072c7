//! The values of operands, and of expressions that make no access, as a state sees them.

ghost use Rattle.std.specs.Prelude.{◌≡◌, ◌<◌, length};
ghost use Rattle.dh_value.specs.Operations.{Suits};
ghost use Rattle.dh_value.specs.Words.{IsWord};
ghost use Rattle.dh_code.specs.Operated.{IsValidOperand, IsOperation, combined_word, kind_of_operand, operand_word};
ghost use Rattle.dh_code.specs.Scenes.{IsHeld, IsScene};
ghost use Rattle.dh_code.specs.States.{IsReadyState, sight_in};
ghost use Rattle.dh_code.specs.Worths.{IsGivenBy, IsSingleValue, IsWorth};

use crate::codes::{CodeOperation, FlatExpression, Operand};
use crate::evaluating::{StepContext, combined_otherwise, operated};
use crate::operands::{View, mask_at, value_at};
use crate::running::StepState;
use dh_value::{Op, Word};

/// The value of an operand, as a state sees it at a path of these ranks.
pub fn value_in(state: &StepState, ranks: &[u32], operand: &Operand) -> Word
    requires { IsValidOperand operand.now }
    ensures value { result ≡ operand_word (sight_in state.now ranks.now) operand.now }
    ensures word { IsWord result }
    ensures kind { result.kind ≡ kind_of_operand operand.now }
{
    let view = View {
        slots: state.variables.as_slice(),
        given: state.given.as_slice(),
        ranks,
    };
    value_at(&view, operand)
}

/// The bits of what any operator gives on two operands, as a state sees them at a path of these
/// ranks.
#[inline(never)]
fn combined_apart(state: &StepState, ranks: &[u32], op: Op, left: &Operand, right: &Operand) -> u64
    requires left { IsValidOperand left.now }
    requires right { IsValidOperand right.now }
    requires suits { Suits op (kind_of_operand left.now) (kind_of_operand right.now) }
    ensures { result ≡
        (combined_word (sight_in state.now ranks.now) op left.now right.now).bits }
{
    combined_otherwise(
        state.variables.as_slice(),
        state.given.as_slice(),
        ranks,
        op,
        left,
        right,
    )
}

/// The bits of what an operator gives on two operands, as a state sees them at a path of these
/// ranks. (What it takes and gives fits the registers of a call, and so does its work: operators that
/// look at signs and widths stand apart.)
#[inline(never)]
fn combined_in(state: &StepState, ranks: &[u32], op: Op, left: &Operand, right: &Operand) -> u64
    requires left { IsValidOperand left.now }
    requires right { IsValidOperand right.now }
    requires suits { Suits op (kind_of_operand left.now) (kind_of_operand right.now) }
    ensures { result ≡
        (combined_word (sight_in state.now ranks.now) op left.now right.now).bits }
{
    let a = value_in(state, ranks, left);
    let b = value_in(state, ranks, right);
    let mask = mask_at(left);
    match op {
        Op::Add => operated(Op::Add, a, b, mask),
        Op::Sub => operated(Op::Sub, a, b, mask),
        Op::Mul => operated(Op::Mul, a, b, mask),
        Op::And => operated(Op::And, a, b, mask),
        Op::Or => operated(Op::Or, a, b, mask),
        Op::Xor => operated(Op::Xor, a, b, mask),
        Op::Eq => operated(Op::Eq, a, b, mask),
        Op::Ne => operated(Op::Ne, a, b, mask),
        Op::Both => operated(Op::Both, a, b, mask),
        Op::Either => operated(Op::Either, a, b, mask),
        Op::Shl => combined_apart(state, ranks, op, left, right),
        Op::Shr => combined_apart(state, ranks, op, left, right),
        Op::Lt => combined_apart(state, ranks, op, left, right),
        Op::Gt => combined_apart(state, ranks, op, left, right),
        Op::Le => combined_apart(state, ranks, op, left, right),
        Op::Ge => combined_apart(state, ranks, op, left, right),
    }
}

/// The value of an operand that is what the operation of a number gave, these bits; None of
/// another.
#[inline(always)]
fn given_by(operand: &Operand, at: usize, given: u64) -> Option<Word>
    requires { IsValidOperand operand.now }
    ensures { IsGivenBy operand.now at given result }
{
    match operand {
        Operand::Constant { .. } => None,
        Operand::Variable { .. } => None,
        Operand::Given {
            kind,
            at: number,
            mask,
        } => {
            if *number == at {
                Some(Word {
                    kind: *kind,
                    bits: given & *mask,
                })
            } else {
                None
            }
        }
    }
}

/// The value of an operand behind an operator of a number, as a state sees it at a path of these
/// ranks; None of other operations, and of operands that are not what it gives.
#[inline(always)]
fn single_value(
    _scene: &StepContext<'_>,
    state: &StepState,
    ranks: &[u32],
    operand: &Operand,
    at: usize,
    operation: &CodeOperation,
) -> Option<Word>
    requires operation { IsOperation _scene.now.entries.now operation.now }
    requires operand { IsValidOperand operand.now }
    requires room { at < length state.now.given.items }
    ensures { IsSingleValue _scene.now (sight_in state.now ranks.now) operand.now at operation.now
        result }
{
    match operation {
        CodeOperation::Binary { op, left, right } => {
            let given = combined_in(state, ranks, *op, left, right);
            given_by(operand, at, given)
        }
        CodeOperation::Convert { .. } => None,
        CodeOperation::Read { .. } => None,
    }
}

/// The value of an expression of one operator at most, as a state sees it at a path of these ranks;
/// None of others. (Most expressions are such ones, and nothing of them has to be kept.)
#[inline(always)]
pub fn plain_value(
    scene: &StepContext<'_>,
    state: &StepState,
    ranks: &[u32],
    value: &FlatExpression,
) -> Option<Word>
    requires scene { IsScene scene.now }
    requires ready { IsReadyState scene.now state.now }
    requires held { IsHeld scene.now.code.now.operations value.now }
    ensures { IsWorth scene.now (sight_in state.now ranks.now) value.now result }
{
    if value.from == value.to {
        return Some(value_in(state, ranks, &value.value));
    }
    let operations = &scene.code.operations.as_slice()[value.from..value.to];
    if operations.len() != 1 {
        return None;
    }
    single_value(
        scene,
        state,
        ranks,
        &value.value,
        value.from,
        &operations[0],
    )
}
