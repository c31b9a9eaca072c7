//! The parser of the language: the tree that tokens spell, or the first token that no program
//! allows where it stands. `specs/Programs.antt` has the contract, `src/laws.rt` what it rests on.
//! Stands on `dh_lexer`, `dh_tree`, `dh_value` and `dh_base`. docs/LANGUAGE.md has the grammar.
#![tactic(auto)]

mod laws;
mod parsing;

pub use laws::{
    one_token_is_out_of_place, programs_are_read_again, reading_is_answered, reading_is_sound,
    refused_tokens_are_out_of_place, trees_of_texts_are_sound,
};
pub use parsing::parse;
