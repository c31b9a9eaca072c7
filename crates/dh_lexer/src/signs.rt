//! Signs: the longest one that begins with a byte, by the two bytes that follow it.

ghost use Rattle.std.specs.Prelude.{◌≡◌};
ghost use Rattle.dh_lexer.specs.FrontPiece as first;

use crate::tokens::TokenKind;

/// The longest sign that begins with the byte `b`, and its length, where `c` and `d` follow it.
#[tactic(auto, unfolding(crate::specs::FrontPiece::sign))]
pub(crate) fn sign(b: u8, c: u8, d: u8) -> Option<(TokenKind, usize)>
    ensures { result ≡ first.sign b c d }
{
    if b == b'-' && c == b'-' && d == b'-' {
        return Some((TokenKind::Dashes, 3));
    }
    if let Some(kind) = long_sign(b, c) {
        return Some((kind, 2));
    }
    match short_sign(b) {
        Some(kind) => Some((kind, 1)),
        None => None,
    }
}

/// The sign of two bytes.
#[tactic(auto, unfolding(crate::specs::FrontPiece::long_sign))]
fn long_sign(b: u8, c: u8) -> Option<TokenKind>
    ensures { result ≡ first.long_sign b c }
{
    match (b, c) {
        (b'.', b'.') => Some(TokenKind::Range),
        (b':', b'=') => Some(TokenKind::Becomes),
        (b'=', b'=') => Some(TokenKind::Equal),
        (b'!', b'=') => Some(TokenKind::NotEqual),
        (b'<', b'=') => Some(TokenKind::LessEqual),
        (b'>', b'=') => Some(TokenKind::GreaterEqual),
        (b'<', b'<') => Some(TokenKind::ShiftLeft),
        (b'>', b'>') => Some(TokenKind::ShiftRight),
        (b'&', b'&') => Some(TokenKind::And),
        (b'|', b'|') => Some(TokenKind::Or),
        (b'+', b'=') => Some(TokenKind::PlusAssign),
        (b'-', b'=') => Some(TokenKind::MinusAssign),
        (b'*', b'=') => Some(TokenKind::StarAssign),
        (b'/', b'=') => Some(TokenKind::SlashAssign),
        _ => None,
    }
}

/// The sign of one byte.
#[tactic(auto, unfolding(crate::specs::FrontPiece::short_sign))]
fn short_sign(b: u8) -> Option<TokenKind>
    ensures { result ≡ first.short_sign b }
{
    match b {
        b'(' => Some(TokenKind::OpenParen),
        b')' => Some(TokenKind::CloseParen),
        b'[' => Some(TokenKind::OpenBracket),
        b']' => Some(TokenKind::CloseBracket),
        b'{' => Some(TokenKind::OpenBrace),
        b'}' => Some(TokenKind::CloseBrace),
        b',' => Some(TokenKind::Comma),
        b';' => Some(TokenKind::Semicolon),
        b':' => Some(TokenKind::Colon),
        b'=' => Some(TokenKind::Assign),
        b'<' => Some(TokenKind::Less),
        b'>' => Some(TokenKind::Greater),
        b'+' => Some(TokenKind::Plus),
        b'-' => Some(TokenKind::Minus),
        b'*' => Some(TokenKind::Star),
        b'/' => Some(TokenKind::Slash),
        b'%' => Some(TokenKind::Percent),
        b'&' => Some(TokenKind::Ampersand),
        b'|' => Some(TokenKind::Bar),
        b'^' => Some(TokenKind::Caret),
        _ => None,
    }
}
