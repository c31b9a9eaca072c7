//! The lexer: it takes the longest token at each point and never goes back, so that each byte is
//! looked at a bounded number of times.

ghost use Rattle.std.specs.Prelude.{◌≡◌, ℕ, ◌<◌, ◌≤◌, ◌==◌, List, [], take, drop, length, slice_index, is_ok, option_map, OnErr, IfOk};
ghost use Rattle.dh_lexer.specs.FrontPiece.{front_of, front_token, token_of};
ghost use Rattle.dh_lexer.specs.LexedText as text;
ghost use Rattle.dh_lexer.specs.LexedText.{place_from, with_kept, PlaceFits, TakesFound, TakesFront, TokensAreOne, BreachIsOne, TokensExcludeBreach, Lexed, AreReadyTokens};

use crate::fronts::{Front, is_space, slash_at, token_at};
use crate::sharing::KnownNames;
use crate::tokens::{Token, TokenKind};
use dh_base::{NoMemory, PassFault, Place, Rule};
use std::alloc::Global;

/// The tokens of a text of at most 1,048,576 bytes, each with its place; the last is `End`. A text
/// that is not made of tokens, spaces and comments alone is refused by the rule `Lex` at the first
/// place where none of them begins. Linear in the text.
pub fn lex(alloc: Global, text: &[u8]) -> Result<Vec<Token>, PassFault>
    requires { length text.now ≤ 1048576 }
    ensures lexed { Lexed text.now result }
    ensures ready { IfOk result (λ v. AreReadyTokens text.now v.items) }
{
    // each token but the last has a byte of its own, and room that is not used is never touched
    let mut tokens = Vec::with_capacity(alloc, text.len())?;
    let mut names = KnownNames::new(alloc)?;
    let mut place = Place { line: 1, column: 1 };
    let mut at = 0;
    while at < text.len() {
        let first = text[at];
        let length = take_front(alloc, &mut names, &mut tokens, place, text, at)?;
        if length == 0 {
            return Err(PassFault::Refused {
                rule: Rule::Lex,
                place,
            });
        }
        place = place_behind(place, first, text, at, length);
        at += length;
    }
    tokens.push(Token {
        kind: TokenKind::End,
        place,
    })?;
    Ok(tokens)
}

/// A text has one list of tokens at most, or one place where it is refused, and not both.
pub fn tokens_are_one()
    ensures tokens { (text : List ℕ) → TokensAreOne text }
    ensures breach { (text : List ℕ) → BreachIsOne text }
    ensures either { (text : List ℕ) → TokensExcludeBreach text }
{}

/// Whether the byte is `/`, with which comments begin.
fn is_slash(b: u8) -> bool
    ensures { result ≡ (b == 47) }
{
    b == b'/'
}

/// Adds the token that begins at `at`, where none of the pieces that begin with a space or a `/` may. Gives
/// its length, 0 where no token begins there. (A token that is put down where it is found is not copied
/// from one answer into another.)
fn take_token(
    alloc: Global,
    names: &mut KnownNames,
    tokens: &mut Vec<Token>,
    place: Place,
    text: &[u8],
    at: usize,
) -> Result<usize, NoMemory>
    requires { at < length text.now }
    ensures { TakesFound (option_map front_token (token_of (drop at text.now))) place
        tokens.old.items tokens.new.items result }
{
    let Some((kind, length)) = token_at(alloc, names, text, at)? else {
        return Ok(0);
    };
    tokens.push(Token { kind, place })?;
    Ok(length)
}

/// Adds the token that stands at the `/` at `at`, if no comment begins there. Gives the piece's length, 0
/// where a comment begins that has no end.
fn take_slash(
    tokens: &mut Vec<Token>,
    place: Place,
    text: &[u8],
    at: usize,
) -> Result<usize, NoMemory>
    requires { (at < length text.now) × (slice_index (drop at text.now) 0 ≡ 47) }
    ensures { TakesFound (front_of (drop at text.now)) place tokens.old.items tokens.new.items
        result }
{
    let Some((front, length)) = slash_at(text, at) else {
        return Ok(0);
    };
    keep(tokens, front, place)?;
    Ok(length)
}

/// Adds the token that stands at `at`, if the piece that begins there is one. Gives the piece's length, 0
/// where none begins there.
fn take_front(
    alloc: Global,
    names: &mut KnownNames,
    tokens: &mut Vec<Token>,
    place: Place,
    text: &[u8],
    at: usize,
) -> Result<usize, NoMemory>
    requires { at < length text.now }
    ensures { TakesFound (front_of (drop at text.now)) place tokens.old.items tokens.new.items
        result }
{
    if is_space(text[at]) {
        return Ok(1);
    }
    if is_slash(text[at]) {
        return take_slash(tokens, place, text, at);
    }
    take_token(alloc, names, tokens, place, text, at)
}

/// Adds the token that stands at this place, if it is one. After want of memory the tokens are as before.
fn keep(tokens: &mut Vec<Token>, front: Front, place: Place) -> Result<(), NoMemory>
    ensures tokens { tokens.new.items ≡ with_kept (is_ok result) tokens.old.items front place }
    ensures memory { OnErr result (text.kept front place ≡ [] → ⊥) }
{
    if let Front::Token(kind) = front {
        tokens.push(Token { kind, place })?;
    }
    Ok(())
}

/// The place behind the piece of so many bytes that begins at `at` with this first one: of all pieces only
/// comments and line feeds have a line feed. (The byte is not read again, once a token is put down.)
fn place_behind(start: Place, first: u8, text: &[u8], at: usize, taken: usize) -> Place
    requires piece { TakesFront text.now at taken × PlaceFits start taken }
    requires first { first ≡ slice_index text.now at }
    ensures { result ≡ place_from start (take taken (drop at text.now)) }
{
    if first == b'/' {
        return place_past(start, &text[at..at + taken]);
    }
    if first == b'\n' {
        return next_place(start, first);
    }
    Place {
        line: start.line,
        column: start.column + taken as u32,
    }
}

/// The place after bytes that begin at `start`.
fn place_past(start: Place, bytes: &[u8]) -> Place
    requires { PlaceFits start (length bytes.now) }
    ensures { result ≡ place_from start bytes.now }
{
    let mut place = start;
    for byte in bytes {
        place = next_place(place, *byte);
    }
    place
}

/// The place after a byte that stands at `place`.
fn next_place(place: Place, byte: u8) -> Place
    requires { PlaceFits place 1 }
    ensures { result ≡ text.next_place place byte }
{
    if byte == b'\n' {
        Place {
            line: place.line + 1,
            column: 1,
        }
    } else {
        Place {
            line: place.line,
            column: place.column + 1,
        }
    }
}
