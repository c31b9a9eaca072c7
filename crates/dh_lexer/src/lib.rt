//! The lexer of the language: the tokens of a text with their places, or the place that no token
//! begins at, and the three quantities of tokens that limits bound.
//! Stands on `dh_base` and `dh_tree` (for names). docs/LANGUAGE.md has the table of tokens.
#![tactic(auto)]

mod counting;
mod fronts;
mod lexing;
mod numbers;
mod quantities;
mod sharing;
mod signs;
mod tokens;
mod words;

pub use counting::counts;
pub use lexing::{lex, tokens_are_one};
pub use quantities::Counts;
pub use tokens::{OutWord, Token, TokenKind};
