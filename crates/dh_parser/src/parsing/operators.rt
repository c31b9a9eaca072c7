//! The operators and how tightly they bind.

ghost use Rattle.std.specs.Prelude.{◌≡◌, suc, ◌<◌, ◌≤◌, length, IfSome, option_map};
ghost use Rattle.dh_parser.specs.Allowed.{level};
ghost use Rattle.dh_parser.specs.Answers.{TookOperator, TookTokens};
ghost use Rattle.dh_parser.specs.Reading.{op_from, reducer_from};
ghost use Rattle.dh_parser.specs.TreesOfTexts.{reducer_op};

use crate::parsing::reading::Reader;
use dh_lexer::TokenKind;
use dh_value::Op;

/// How tightly an operator binds, from 0 for `||` to 9 for `*`.
fn level_of(op: Op) -> u8
    ensures level { result ≡ level op }
    ensures bound { result < 10 }
{
    match op {
        Op::Either => 0,
        Op::Both => 1,
        Op::Eq | Op::Ne => 2,
        Op::Lt | Op::Gt | Op::Le | Op::Ge => 3,
        Op::Or => 4,
        Op::Xor => 5,
        Op::And => 6,
        Op::Shl | Op::Shr => 7,
        Op::Add | Op::Sub => 8,
        Op::Mul => 9,
    }
}

/// The level of what may stand at the right of an operator: what binds more tightly than it.
pub(crate) fn level_above(op: Op) -> u8
    ensures { result ≡ suc (level op) }
{
    level_of(op) + 1
}

/// The operator that a token is.
pub(crate) fn operator_of(kind: &TokenKind) -> Option<Op>
    ensures { result ≡ op_from kind.now }
{
    match kind {
        TokenKind::Or => Some(Op::Either),
        TokenKind::And => Some(Op::Both),
        TokenKind::Equal => Some(Op::Eq),
        TokenKind::NotEqual => Some(Op::Ne),
        TokenKind::Less => Some(Op::Lt),
        TokenKind::Greater => Some(Op::Gt),
        TokenKind::LessEqual => Some(Op::Le),
        TokenKind::GreaterEqual => Some(Op::Ge),
        TokenKind::Bar => Some(Op::Or),
        TokenKind::Caret => Some(Op::Xor),
        TokenKind::Ampersand => Some(Op::And),
        TokenKind::ShiftLeft => Some(Op::Shl),
        TokenKind::ShiftRight => Some(Op::Shr),
        TokenKind::Plus => Some(Op::Add),
        TokenKind::Minus => Some(Op::Sub),
        TokenKind::Star => Some(Op::Mul),
        _ => None,
    }
}

/// Takes an operator that binds at least as tightly as `level`, if one comes next.
pub(crate) fn take_operator(reader: &mut Reader<'_>, level: u8) -> Option<Op>
    ensures took { TookOperator level result reader.old.rest.now reader.new.rest.now }
    ensures commands { reader.new.commands ≡ reader.old.commands }
    ensures shorter { length reader.new.rest.now ≤ length reader.old.rest.now }
    ensures taken { IfSome result (λ _. TookTokens reader.old reader.new) }
{
    let [token, after @ ..] = reader.rest else {
        return None;
    };
    let op = operator_of(&token.kind)?;
    if level_of(op) < level {
        return None;
    }
    reader.rest = after;
    Some(op)
}

/// The operator of a reducer.
pub(crate) fn reducer_of(kind: &TokenKind) -> Option<Op>
    ensures { result ≡ option_map reducer_op (reducer_from kind.now) }
{
    match kind {
        TokenKind::PlusAssign => Some(Op::Add),
        TokenKind::MinusAssign => Some(Op::Sub),
        TokenKind::StarAssign => Some(Op::Mul),
        _ => None,
    }
}
