//! The parser. It looks at one token at a time, never goes back, and stops at the first token that
//! it has no use for: no program has that token after those before it.

ghost use Rattle.std.specs.Prelude.{◌<◌, ◌^◌, length};
ghost use Rattle.dh_lexer.specs.LexedText.{AreEnded};
ghost use Rattle.dh_parser.specs.Programs.{Parses};

mod commands;
mod expressions;
mod loops;
mod operators;
mod programs;
mod reading;
mod refusals;
mod rooms;
mod simple;
mod types;
mod views;

use crate::parsing::programs::program;
use crate::parsing::reading::{Reader, Stop};
use crate::parsing::refusals::refusal;
use dh_base::PassFault;
use dh_lexer::Token;
use dh_tree::Tree;
use std::alloc::Global;

/// The tree of the program that these tokens spell. They end with `End`, and are fewer than 2^32
/// and within the limits on brackets, operators and `else if`, which bound how deep the parser
/// calls itself. Where they spell none, the refusal is at the first token that no program has after
/// those before it, by the rule `Unsupported` if that token is one that the language leaves out or
/// the width of a kind, and else by `Syntax`.
pub fn parse(alloc: Global, tokens: &[Token]) -> Result<Tree, PassFault>
    requires ended { AreEnded tokens.now }
    requires few { length tokens.now < 2 ^ 32 }
    ensures { Parses tokens.now result }
{
    let mut reader = Reader {
        alloc,
        rest: tokens,
        commands: 0,
    };
    match program(&mut reader) {
        Ok(tree) => Ok(tree),
        Err(Stop::NoMemory) => Err(PassFault::NoMemory),
        Err(Stop::Here) => {
            let at = tokens.len() - reader.rest.len();
            let before = &tokens[..at];
            let token = &tokens[at];
            Err(refusal(before, token))
        }
    }
}
