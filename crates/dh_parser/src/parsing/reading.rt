//! Where the parser stands, and the single tokens that it takes.

ghost use Rattle.std.specs.Prelude.{◌≡◌, ◌<◌, ◌≤◌, ◌+◌, ◌^◌, None, length, IfOk, IfErr};
ghost use Rattle.dh_parser.specs.Answers.{IfWanting, IsFirstTokenPlace, Took, AnswersAs, SameNumeral, TookTokens};
ghost use Rattle.dh_parser.specs.Marks as marks;
ghost use Rattle.dh_parser.specs.Marks.{comes};
ghost use Rattle.dh_parser.specs.Reading.{the, the_number, the_name, access_goes_on};
ghost use Rattle.dh_parser.specs.TreesOfTexts.{ref_of};
ghost use Rattle.dh_parser.specs.declared.parsing.reading.Stop.TheVariants as stop;

use dh_base::{NoMemory, Place};
use dh_lexer::{Token, TokenKind};
use dh_tree::Ref;
use std::alloc::{AllocError, AllocFailed, Global};

/// Where a parser stands.
#[derive(Drop)]
pub(crate) struct Reader<'a> {
    /// Holds what is built.
    pub alloc: Global,
    /// The tokens still to come.
    pub rest: &'a [Token],
    /// How many commands have begun: the number of the next.
    pub commands: u64,
}

/// Why a parser gave no tree.
#[derive(Clone, Copy, PartialEq, Eq)]
pub(crate) enum Stop {
    /// No program has the token that comes next after those before it.
    Here,
    /// Want of memory: an allocation was refused.
    NoMemory,
}

impl From<NoMemory> for Stop {
    ghost from_gives = { λ _ e. e ≡ stop.NoMemory };

    fn from(_refused: NoMemory) -> Stop {
        Stop::NoMemory
    }
}

impl From<AllocError> for Stop {
    ghost from_gives = { λ _ e. e ≡ stop.NoMemory };

    fn from(_refused: AllocError) -> Stop {
        Stop::NoMemory
    }
}

impl<T: Drop> From<AllocFailed<T>> for Stop {
    ghost from_gives = { λ _ e. e ≡ stop.NoMemory };

    fn from(_refused: AllocFailed<T>) -> Stop {
        Stop::NoMemory
    }
}

/// A word or a sign that has its own place in a form.
#[derive(Clone, Copy, PartialEq, Eq)]
pub(crate) enum Mark {
    /// `let`
    Let,
    /// `by`
    By,
    /// `if`
    If,
    /// `else`
    Else,
    /// `while`
    While,
    /// `for`
    For,
    /// `unroll`
    Unroll,
    /// `combine`
    Combine,
    /// `bank`
    Bank,
    /// `as`
    As,
    /// `(`
    OpenParen,
    /// `)`
    CloseParen,
    /// `[`
    OpenBracket,
    /// `]`
    CloseBracket,
    /// `{`
    OpenBrace,
    /// `}`
    CloseBrace,
    /// `,`
    Comma,
    /// `;`
    Semicolon,
    /// `:`
    Colon,
    /// `..`
    Range,
    /// `---`
    Dashes,
    /// `:=`
    Becomes,
    /// `=`
    Assign,
    /// `<`
    Less,
    /// `>`
    Greater,
    /// `*`
    Star,
    /// The end of the text.
    End,
}

/// Whether the token is this word or sign. Where the mark is known, this is one comparison.
#[inline(always)]
pub(crate) fn is_mark(kind: &TokenKind, mark: Mark) -> bool
    ensures { result ≡ marks.is_mark kind.now mark }
{
    match kind {
        TokenKind::Let => mark == Mark::Let,
        TokenKind::By => mark == Mark::By,
        TokenKind::If => mark == Mark::If,
        TokenKind::Else => mark == Mark::Else,
        TokenKind::While => mark == Mark::While,
        TokenKind::For => mark == Mark::For,
        TokenKind::Unroll => mark == Mark::Unroll,
        TokenKind::Combine => mark == Mark::Combine,
        TokenKind::Bank => mark == Mark::Bank,
        TokenKind::As => mark == Mark::As,
        TokenKind::OpenParen => mark == Mark::OpenParen,
        TokenKind::CloseParen => mark == Mark::CloseParen,
        TokenKind::OpenBracket => mark == Mark::OpenBracket,
        TokenKind::CloseBracket => mark == Mark::CloseBracket,
        TokenKind::OpenBrace => mark == Mark::OpenBrace,
        TokenKind::CloseBrace => mark == Mark::CloseBrace,
        TokenKind::Comma => mark == Mark::Comma,
        TokenKind::Semicolon => mark == Mark::Semicolon,
        TokenKind::Colon => mark == Mark::Colon,
        TokenKind::Range => mark == Mark::Range,
        TokenKind::Dashes => mark == Mark::Dashes,
        TokenKind::Becomes => mark == Mark::Becomes,
        TokenKind::Assign => mark == Mark::Assign,
        TokenKind::Less => mark == Mark::Less,
        TokenKind::Greater => mark == Mark::Greater,
        TokenKind::Star => mark == Mark::Star,
        TokenKind::End => mark == Mark::End,
        _ => false,
    }
}

/// A number where it stands.
#[derive(Clone, Copy, PartialEq, Eq)]
pub(crate) struct Numeral {
    /// The number.
    pub value: u64,
    /// The place of its first digit.
    pub place: Place,
}

impl Reader<'_> {
    /// The place of the next token.
    pub fn place(&self) -> Result<Place, Stop>
        ensures { IsFirstTokenPlace result self.now.rest.now }
    {
        match self.rest {
            [token, ..] => Ok(token.place),
            [] => Err(Stop::Here),
        }
    }

    /// Whether this comes next.
    #[inline(always)]
    pub fn is_next(&self, mark: Mark) -> bool
        ensures { result ≡ comes mark self.now.rest.now }
    {
        match self.rest {
            [token, ..] => is_mark(&token.kind, mark),
            [] => false,
        }
    }

    /// Whether an access goes on here, after its name.
    #[inline(always)]
    pub fn goes_on(&self) -> bool
        ensures { result ≡ access_goes_on self.now.rest.now }
    {
        self.is_next(Mark::OpenBracket) || self.is_next(Mark::OpenBrace)
    }

    /// Takes this, if it comes next, and says whether it did.
    #[inline(always)]
    pub fn take(&mut self, mark: Mark) -> bool
        ensures took { Took mark result self.old.rest.now self.new.rest.now }
        ensures shorter { length self.new.rest.now ≤ length self.old.rest.now }
        ensures commands { self.new.commands ≡ self.old.commands }
    {
        match self.rest {
            [token, after @ ..] if is_mark(&token.kind, mark) => {
                self.rest = after;
                true
            }
            _ => false,
        }
    }

    /// Takes this, which has to come next. Gives its place.
    #[inline(always)]
    pub fn skip(&mut self, mark: Mark) -> Result<Place, Stop>
        ensures memory { IfErr result (λ e. e ≡ stop.Here) }
        ensures answer { AnswersAs (the mark) (λ place p. place ≡ p) result self.old self.new }
        ensures shorter { length self.new.rest.now ≤ length self.old.rest.now }
        ensures taken { IfOk result (λ _. TookTokens self.old self.new) }
        ensures commands { self.new.commands ≡ self.old.commands }
    {
        match self.rest {
            [token, after @ ..] if is_mark(&token.kind, mark) => {
                self.rest = after;
                Ok(token.place)
            }
            _ => Err(Stop::Here),
        }
    }

    /// Takes a name, which has to come next. Only where one does it takes memory.
    #[inline]
    pub fn name(&mut self) -> Result<Ref, Stop>
        ensures memory { IfWanting result (the_name self.old.rest.now) }
        ensures unnumbered { IfOk result (λ name. name.entity ≡ None) }
        ensures answer { AnswersAs the_name (λ name n. name ≡ ref_of n) result self.old self.new }
        ensures shorter { length self.new.rest.now ≤ length self.old.rest.now }
        ensures taken { IfOk result (λ _. TookTokens self.old self.new) }
        ensures commands { self.new.commands ≡ self.old.commands }
    {
        match self.rest {
            [
                Token {
                    kind: TokenKind::Name(name),
                    place,
                },
                after @ ..,
            ] => {
                let name = name.try_clone(self.alloc)?;
                self.rest = after;
                Ok(Ref {
                    name,
                    place: *place,
                    entity: None,
                })
            }
            _ => Err(Stop::Here),
        }
    }

    /// Takes a number, which has to come next.
    pub fn number(&mut self) -> Result<Numeral, Stop>
        ensures memory { IfErr result (λ e. e ≡ stop.Here) }
        ensures answer { AnswersAs the_number SameNumeral result self.old self.new }
        ensures shorter { length self.new.rest.now ≤ length self.old.rest.now }
        ensures taken { IfOk result (λ _. TookTokens self.old self.new) }
        ensures commands { self.new.commands ≡ self.old.commands }
    {
        match self.rest {
            [
                Token {
                    kind: TokenKind::Number(value),
                    place,
                },
                after @ ..,
            ] => {
                self.rest = after;
                Ok(Numeral {
                    value: *value,
                    place: *place,
                })
            }
            _ => Err(Stop::Here),
        }
    }
}

/// The number of a command that begins here, after so many commands.
pub(crate) fn begin(commands: &mut u64) -> u32
    requires { commands.old < 2 ^ 32 }
    ensures id { result ≡ commands.old }
    ensures count { commands.new ≡ commands.old + 1 }
{
    let id = *commands as u32;
    *commands += 1;
    id
}
