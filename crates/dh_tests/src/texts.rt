//! Texts of any length, and what the passes make of a text.

ghost use Rattle.std.specs.Prelude.{◌<◌, ◌^◌, IfOk, length};
ghost use Rattle.dh_lexer.specs.LexedText.{AreEnded};
ghost use Rattle.dh_tree.specs.NameCounts.{HasFewNames};
ghost use Rattle.dh_tree.specs.Seen.{program_seen};

use dh_lexer::{Token, lex};
use dh_names::resolve;
use dh_parser::{parse, trees_of_texts_are_sound};
use dh_tree::{Named, Tree, Typed};
use dh_types::type_program;
use std::alloc::{AllocError, Global};
use std::test::Fail;

/// The most bytes of a text.
pub const LONGEST: usize = 1_048_576;

/// A piece of text, and behind it another so many times.
pub fn repeated(alloc: Global, first: &str, piece: &str, times: u64) -> Result<String, AllocError> {
    let mut text = String::from_str(alloc, first)?;
    for _ in 0..times {
        text.push_str(piece)?;
    }
    Ok(text)
}

/// A program of so many stores to one element, each in a logical step of its own, of 23 bytes each.
pub fn stores(alloc: Global, count: u64) -> Result<String, AllocError> {
    repeated(
        alloc,
        "decl A: ubit<32>[1];\n",
        "A[0] := 4294967295 ---\n",
        count,
    )
}

/// The tokens of a text.
pub fn tokens_of(alloc: Global, text: &str) -> Result<Vec<Token>, Fail>
    ensures ended { IfOk result (λ ts. AreEnded ts.items) }
    ensures few { IfOk result (λ ts. length ts.items < 2 ^ 32) }
{
    let bytes = text.as_bytes();
    if bytes.len() > LONGEST {
        return Err("too long")?;
    }
    Ok(lex(alloc, bytes)?)
}

/// The tree of a text.
pub fn tree_of(alloc: Global, text: &str) -> Result<Tree, Fail>
    ensures { IfOk result (λ t. HasFewNames (program_seen t)) }
{
    trees_of_texts_are_sound();
    let tokens = tokens_of(alloc, text)?;
    Ok(parse(alloc, tokens.as_slice())?)
}

/// The tree of a text with its names resolved.
pub fn named_of(alloc: Global, text: &str) -> Result<Named, Fail> {
    let tree = tree_of(alloc, text)?;
    Ok(resolve(alloc, tree)?)
}

/// The tree of a text with its kinds.
pub fn typed_of(alloc: Global, text: &str) -> Result<Typed, Fail> {
    let named = named_of(alloc, text)?;
    Ok(type_program(alloc, named)?)
}
