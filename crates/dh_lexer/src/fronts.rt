//! The piece that a text begins with: a space, a comment, or the longest token.

ghost use Rattle.std.specs.Prelude.{◌≡◌, ◌+◌, ◌<◌, ◌≤◌, length, drop, slice_index, option_map, Some, true};
ghost use Rattle.std.specs.List.{AllByRecursion};
ghost use Rattle.dh_tree.specs.Names.{IsNameByte};
ghost use Rattle.dh_lexer.specs.declared.tokens.TokenKind.TheVariants as kind;
ghost use Rattle.dh_lexer.specs.FrontPiece as first;
ghost use Rattle.dh_lexer.specs.FrontPiece.{run_len, line_len, block_len, run_of, token_of, front_of, comment_of, IsNamed, IsNamedToken, AnswersFound};

use crate::numbers::number;
use crate::sharing::{KnownNames, code_with};
use crate::signs::sign;
use crate::tokens::TokenKind;
use crate::words::word;
use dh_base::NoMemory;
use dh_tree::Name;
use std::alloc::Global;

/// What a text begins with.
#[derive(Drop)]
pub enum Front {
    /// A space or a comment.
    Gap,
    /// A token.
    Token(TokenKind),
}

/// What begins at the `/` at `at` and its length, or None where a comment begins that has no end.
pub(crate) fn slash_at(text: &[u8], at: usize) -> Option<(Front, usize)>
    requires { (at < length text.now) × (slice_index (drop at text.now) 0 ≡ 47) }
    ensures { result ≡ front_of (drop at text.now) }
{
    let next = byte_at(text, at, 1);
    if next == b'/' {
        return Some((Front::Gap, line_end(text, at + 2) - at));
    }
    if next == b'*' {
        return block_comment(text, at);
    }
    if next == b'=' {
        return Some((Front::Token(TokenKind::SlashAssign), 2));
    }
    Some((Front::Token(TokenKind::Slash), 1))
}

/// Whether the byte may stand between tokens.
pub(crate) fn is_space(b: u8) -> bool
    ensures { result ≡ first.is_space b }
{
    b == b' ' || b == b'\t' || b == b'\n' || b == b'\r'
}

/// Whether the byte may stand in a name or a number. Most of those are small letters.
fn is_name_byte(b: u8) -> bool
    ensures { result ≡ first.is_name_byte b }
{
    if b >= b'a' {
        return b <= b'z';
    }
    if b >= b'A' {
        return b <= b'Z' || b == b'_';
    }
    b >= b'0' && b <= b'9'
}

/// The byte `ahead` bytes after `at`, or 0 (which no token has) where the text ends before.
fn byte_at(text: &[u8], at: usize, ahead: usize) -> u8
    requires { (at < length text.now) × (ahead ≤ 2) }
    ensures { result ≡ slice_index (drop at text.now) ahead }
{
    if ahead < text.len() - at {
        text[at + ahead]
    } else {
        0
    }
}

/// Where the line ends that `at` stands in: at its line feed, or with the text.
fn line_end(text: &[u8], at: usize) -> usize
    requires { at ≤ length text.now }
    ensures end { result ≡ at + line_len (drop at text.now) }
    ensures within { result ≤ length text.now }
{
    for i in at..text.len() {
        if text[i] == b'\n' {
            return i;
        }
    }
    text.len()
}

/// The comment that begins with the two bytes at `at`, and its length, or None where it has no end.
fn block_comment(text: &[u8], at: usize) -> Option<(Front, usize)>
    requires { at + 2 ≤ length text.now }
    ensures { result ≡ comment_of (drop at text.now) }
{
    match block_end(text, at + 2) {
        Some(end) => Some((Front::Gap, end - at)),
        None => None,
    }
}

/// Where the first `*/` from `at` on ends, or None where there is none.
fn block_end(text: &[u8], at: usize) -> Option<usize>
    requires { at ≤ length text.now }
    ensures { result ≡ option_map (λ n. at + n) (block_len (drop at text.now)) }
{
    for i in at..text.len() {
        if text[i] == b'*' && byte_at(text, i, 1) == b'/' {
            return Some(i + 2);
        }
    }
    None
}

/// The token that begins at `at` and its length, or None where there is none. No longer one begins
/// there.
#[tactic(auto, unfolding(crate::specs::FrontPiece::token_of))]
pub(crate) fn token_at(
    alloc: Global,
    names: &mut KnownNames,
    text: &[u8],
    at: usize,
) -> Result<Option<(TokenKind, usize)>, NoMemory>
    requires { at < length text.now }
    ensures { AnswersFound IsNamedToken (token_of (drop at text.now)) result }
{
    if !is_name_byte(text[at]) {
        return Ok(sign(text[at], byte_at(text, at, 1), byte_at(text, at, 2)));
    }
    let (end, code) = run_end(text, at);
    match run(alloc, names, code, &text[at..end])? {
        Some(kind) => Ok(Some((kind, end - at))),
        None => Ok(None),
    }
}

/// Where the letters, digits and `_` end of which the first is at `at`, and their code, by which a name is
/// known.
fn run_end(text: &[u8], at: usize) -> (usize, u32)
    requires { (at < length text.now) × first.is_name_byte (slice_index text.now at) ≡ true }
    ensures end { result.0 ≡ at + run_len (drop at text.now) }
    ensures within { result.0 ≤ length text.now }
{
    let mut code = code_with(0, text[at]);
    for i in at + 1..text.len() {
        if !is_name_byte(text[i]) {
            return (i, code);
        }
        code = code_with(code, text[i]);
    }
    (text.len(), code)
}

/// The token of a name that is known.
fn shared(alloc: Global, name: &Name) -> Result<Option<TokenKind>, NoMemory>
    ensures { AnswersFound IsNamed (Some (kind.Name name.now)) result }
{
    let name = name.try_clone(alloc)?;
    Ok(Some(TokenKind::Name(name)))
}

/// The word, name or number that these letters, digits and `_` with this code make up, or None. Most words
/// are names that are known.
#[tactic(auto, unfolding(crate::specs::FrontPiece::run_of))]
fn run(
    alloc: Global,
    names: &mut KnownNames,
    code: u32,
    bytes: &[u8],
) -> Result<Option<TokenKind>, NoMemory>
    requires { (0 < length bytes.now) × AllByRecursion IsNameByte bytes.now }
    ensures { AnswersFound IsNamed (run_of bytes.now) result }
{
    if bytes[0].is_ascii_digit() {
        return match number(bytes) {
            Some(number) => Ok(Some(TokenKind::Number(number))),
            None => Ok(None),
        };
    }
    if let Some(name) = names.find(code, bytes) {
        return shared(alloc, name);
    }
    word(alloc, names, code, bytes)
}
