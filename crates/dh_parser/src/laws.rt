//! What holds of all lists of tokens, stated on functions that do nothing.

ghost use Rattle.std.specs.Prelude.{◌≡◌, List};
ghost use Rattle.dh_lexer.specs.LexedText.{AreEnded};
ghost use Rattle.dh_lexer.specs.declared.tokens.Token.{Token};
ghost use Rattle.dh_tree.specs.PlainTrees.{Program};
ghost use Rattle.dh_parser.specs.Programs.{IsSoundReading, IsAnswered, IsPlaced, Spells, AtMostOneOutOfPlace, IsOfTextIfSpelled, IsReadAgain, NoneOutOfPlaceIfSpelled};
ghost use Rattle.dh_parser.specs.Allowed.{ProgramFits};
ghost use Rattle.dh_parser.specs.Grammar.{ProgramText};
ghost use Rattle.dh_parser.specs.Reading.{the_program};

/// What the reader of programs reads is a text of the grammar that has the tokens which it took.
pub fn reading_is_sound()
    ensures { (tokens : List Token) → IsSoundReading tokens (the_program tokens) }
{}

/// The reader of programs has an answer for all lists of tokens: it has steps enough.
pub fn reading_is_answered()
    ensures { (tokens : List Token) → IsAnswered (the_program tokens) }
{}

/// What a program of the grammar spells is read as that program, so that one tree spells a list of
/// tokens at most.
pub fn programs_are_read_again()
    ensures again { (p : ProgramText) → ProgramFits p → IsReadAgain p }
    ensures one { (t u : Program) (ts : List Token) → Spells t ts → Spells u ts → t ≡ u }
{}

/// Where the reader of programs stops, no program goes on: some program begins with the tokens
/// before, and none with them and the token at which it stops. If it does not stop, it reads all.
pub fn refused_tokens_are_out_of_place()
    ensures { (tokens : List Token) → AreEnded tokens → IsPlaced tokens (the_program tokens) }
{}

/// What holds of the tree of any text, whatever rules it breaks: names are names, what a type does not
/// write is 1, kinds have from 1 to 64 bits, commands are numbered in text order, and there are no more
/// names than tokens.
pub fn trees_of_texts_are_sound()
    ensures { (p : Program) (tokens : List Token) → IsOfTextIfSpelled p tokens }
{}

/// A list of tokens has one token out of place at most, and none where a tree spells it.
pub fn one_token_is_out_of_place()
    ensures one { (tokens : List Token) → AtMostOneOutOfPlace tokens }
    ensures spelled { (p : Program) (tokens : List Token) → NoneOutOfPlaceIfSpelled p tokens }
{}
