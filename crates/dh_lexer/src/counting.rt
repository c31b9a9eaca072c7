//! The quantities of a list of tokens that limits bound.

ghost use Rattle.std.specs.Prelude.{◌≡◌, ◌+◌, ◌<◌, ◌≤◌, ◌^◌, ◌&&◌, false, if◌then◌else◌, max};
ghost use Rattle.dh_lexer.specs.Counted as counted;
ghost use Rattle.dh_lexer.specs.Counted.{most_open, most_operators, else_ifs_after};

use crate::quantities::Counts;
use crate::tokens::{Token, TokenKind};

/// The three quantities of the tokens. Linear in the tokens, which are gone through once, and takes no
/// memory.
pub fn counts(tokens: &[Token]) -> Counts
    ensures brackets { result.brackets ≡ most_open 0 tokens.now }
    ensures operators { result.operators ≡ most_operators 0 tokens.now }
    ensures else_ifs { result.else_ifs ≡ else_ifs_after false tokens.now }
{
    let mut depth = 0;
    let mut brackets = 0;
    let mut seen = 0;
    let mut operators = 0;
    let mut after_else = false;
    let mut else_ifs = 0;
    for token in tokens {
        let (opened, most_opened) = open_after(depth, brackets, &token.kind);
        depth = opened;
        brackets = most_opened;
        let (passed, most_passed) = operators_after(seen, operators, &token.kind);
        seen = passed;
        operators = most_passed;
        else_ifs += else_if(after_else, &token.kind);
        after_else = is_else(&token.kind);
    }
    Counts {
        brackets,
        operators,
        else_ifs,
    }
}

/// How many brackets are open after a token, and the most at one point so far.
fn open_after(depth: u64, most: u64, kind: &TokenKind) -> (u64, u64)
    requires { (depth + 1 < 2 ^ 64) × (depth ≤ most) }
    ensures open { result.0 ≡ counted.open_brackets_after depth kind.now }
    ensures most { result.1 ≡ max (counted.open_brackets_after depth kind.now) most }
{
    match kind {
        TokenKind::OpenParen | TokenKind::OpenBracket | TokenKind::OpenBrace => {
            (depth + 1, most.max(depth + 1))
        }
        TokenKind::CloseParen | TokenKind::CloseBracket | TokenKind::CloseBrace => {
            (depth.saturating_sub(1), most)
        }
        _ => (depth, most),
    }
}

/// How many operators there are since the last separator, after a token, and the most so far.
fn operators_after(seen: u64, most: u64, kind: &TokenKind) -> (u64, u64)
    requires { (seen + 1 < 2 ^ 64) × (seen ≤ most) }
    ensures seen { result.0 ≡ counted.operators_after seen kind.now }
    ensures most { result.1 ≡ max (counted.operators_after seen kind.now) most }
{
    if is_separator(kind) {
        (0, most)
    } else if is_operator(kind) {
        (seen + 1, most.max(seen + 1))
    } else {
        (seen, most)
    }
}

/// Whether operators are counted anew from the token on.
fn is_separator(kind: &TokenKind) -> bool
    ensures { result ≡ counted.is_separator kind.now }
{
    matches!(
        kind,
        TokenKind::Semicolon | TokenKind::OpenBrace | TokenKind::CloseBrace | TokenKind::Dashes
    )
}

/// Whether the token is the sign of an operator.
fn is_operator(kind: &TokenKind) -> bool
    ensures { result ≡ counted.is_operator_sign kind.now }
{
    matches!(
        kind,
        TokenKind::Plus
            | TokenKind::Minus
            | TokenKind::Star
            | TokenKind::Slash
            | TokenKind::Percent
            | TokenKind::Ampersand
            | TokenKind::Bar
            | TokenKind::Caret
            | TokenKind::ShiftLeft
            | TokenKind::ShiftRight
            | TokenKind::Less
            | TokenKind::Greater
            | TokenKind::LessEqual
            | TokenKind::GreaterEqual
            | TokenKind::Equal
            | TokenKind::NotEqual
            | TokenKind::And
            | TokenKind::Or
    )
}

/// One, where the token is the `if` of an `else if`.
fn else_if(after_else: bool, kind: &TokenKind) -> u64
    ensures is { result ≡ (if after_else && counted.is_if kind.now then 1 else 0) }
    ensures few { result ≤ 1 }
{
    if after_else && is_if(kind) { 1 } else { 0 }
}

/// Whether the token is `else`.
fn is_else(kind: &TokenKind) -> bool
    ensures { result ≡ counted.is_else kind.now }
{
    matches!(kind, TokenKind::Else)
}

/// Whether the token is `if`.
fn is_if(kind: &TokenKind) -> bool
    ensures { result ≡ counted.is_if kind.now }
{
    matches!(kind, TokenKind::If)
}
