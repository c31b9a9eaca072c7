//! Words: those of the language, those that it keeps out, and names.

ghost use Rattle.std.specs.Prelude.{◌≡◌, IfSome, Some};
ghost use Rattle.std.specs.List.{AllByRecursion};
ghost use Rattle.dh_tree.specs.Names.{IsNameByte};
ghost use Rattle.dh_lexer.specs.FrontPiece as first;
ghost use Rattle.dh_lexer.specs.FrontPiece.{word_kind, IsNamed, AnswersFound};

use crate::sharing::KnownNames;
use crate::tokens::{OutWord, TokenKind};
use dh_base::NoMemory;
use std::alloc::Global;

/// The token that is this word: a word of the language, one that it keeps out, or else a name.
/// Never None. Only a name takes memory; it is known by the word's code from now on.
#[tactic(auto, unfolding(crate::specs::FrontPiece::word_kind))]
pub(crate) fn word(
    alloc: Global,
    names: &mut KnownNames,
    code: u32,
    bytes: &[u8],
) -> Result<Option<TokenKind>, NoMemory>
    requires { AllByRecursion IsNameByte bytes.now }
    ensures { AnswersFound IsNamed (word_kind bytes.now) result }
{
    if let Some(kind) = frequent_word(bytes) {
        return Ok(Some(kind));
    }
    let Ok(text) = str::from_utf8(bytes) else {
        return Ok(None);
    };
    if let Some(kind) = kept_word(text) {
        return Ok(Some(kind));
    }
    let name = names.add(alloc, code, text)?;
    Ok(Some(TokenKind::Name(name)))
}

/// The token of a word that is no name, if it is a short one that texts have often. None tells nothing.
#[tactic(auto, unfolding(crate::specs::FrontPiece::kept_word))]
fn frequent_word(bytes: &[u8]) -> Option<TokenKind>
    ensures { IfSome result (λ kind. first.kept_word bytes.now ≡ Some kind) }
{
    match bytes {
        b"if" => Some(TokenKind::If),
        b"by" => Some(TokenKind::By),
        b"let" => Some(TokenKind::Let),
        b"for" => Some(TokenKind::For),
        b"else" => Some(TokenKind::Else),
        b"view" => Some(TokenKind::View),
        b"decl" => Some(TokenKind::Decl),
        b"ubit" => Some(TokenKind::Ubit),
        _ => None,
    }
}

/// The token of a word that is no name. The word is compared with those of its length alone, since most
/// words of a text are names, and with those first that texts have most.
fn kept_word(text: &str) -> Option<TokenKind>
    ensures { result ≡ first.kept_word text.now }
{
    match text.len() {
        2 => word_of_two(text),
        3 => word_of_three(text),
        4 => word_of_four(text),
        5 => word_of_five(text),
        6 => word_of_six(text),
        7 => word_of_seven(text),
        _ => None,
    }
}

/// That of a word of two letters.
#[tactic(auto, unfolding(crate::specs::FrontPiece::word_of_length))]
fn word_of_two(text: &str) -> Option<TokenKind>
    ensures { result ≡ first.word_of_length 2 text.now }
{
    match text {
        "if" => Some(TokenKind::If),
        "by" => Some(TokenKind::By),
        "as" => Some(TokenKind::As),
        _ => None,
    }
}

/// That of a word of three letters.
#[tactic(auto, unfolding(crate::specs::FrontPiece::word_of_length))]
fn word_of_three(text: &str) -> Option<TokenKind>
    ensures { result ≡ first.word_of_length 3 text.now }
{
    match text {
        "let" => Some(TokenKind::Let),
        "for" => Some(TokenKind::For),
        "def" => Some(TokenKind::Def),
        "bit" => Some(TokenKind::Bit),
        "fix" => Some(TokenKind::Out(OutWord::Fix)),
        _ => None,
    }
}

/// That of a word of four letters.
#[tactic(auto, unfolding(crate::specs::FrontPiece::word_of_length))]
fn word_of_four(text: &str) -> Option<TokenKind>
    ensures { result ≡ first.word_of_length 4 text.now }
{
    match text {
        "else" => Some(TokenKind::Else),
        "decl" => Some(TokenKind::Decl),
        "view" => Some(TokenKind::View),
        "bank" => Some(TokenKind::Bank),
        "ubit" => Some(TokenKind::Ubit),
        "bool" => Some(TokenKind::Bool),
        "true" => Some(TokenKind::True),
        "ufix" => Some(TokenKind::Out(OutWord::Ufix)),
        _ => None,
    }
}

/// That of a word of five letters.
#[tactic(auto, unfolding(crate::specs::FrontPiece::word_of_length))]
fn word_of_five(text: &str) -> Option<TokenKind>
    ensures { result ≡ first.word_of_length 5 text.now }
{
    match text {
        "while" => Some(TokenKind::While),
        "shift" => Some(TokenKind::Shift),
        "split" => Some(TokenKind::Split),
        "false" => Some(TokenKind::False),
        "float" => Some(TokenKind::Out(OutWord::Float)),
        "decor" => Some(TokenKind::Out(OutWord::Decor)),
        _ => None,
    }
}

/// That of a word of six letters.
#[tactic(auto, unfolding(crate::specs::FrontPiece::word_of_length))]
fn word_of_six(text: &str) -> Option<TokenKind>
    ensures { result ≡ first.word_of_length 6 text.now }
{
    match text {
        "shrink" => Some(TokenKind::Shrink),
        "suffix" => Some(TokenKind::Suffix),
        "unroll" => Some(TokenKind::Unroll),
        "double" => Some(TokenKind::Out(OutWord::Double)),
        "record" => Some(TokenKind::Out(OutWord::Record)),
        "import" => Some(TokenKind::Out(OutWord::Import)),
        "return" => Some(TokenKind::Out(OutWord::Return)),
        _ => None,
    }
}

/// That of a word of seven letters.
#[tactic(auto, unfolding(crate::specs::FrontPiece::word_of_length))]
fn word_of_seven(text: &str) -> Option<TokenKind>
    ensures { result ≡ first.word_of_length 7 text.now }
{
    match text {
        "combine" => Some(TokenKind::Combine),
        _ => None,
    }
}
