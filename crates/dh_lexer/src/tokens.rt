//! The tokens of the language.

use dh_base::Place;
use dh_tree::Name;

/// A word that the language keeps out: it is no name, and no program has it.
#[derive(Clone, Copy, Debug, PartialEq, Eq)]
pub enum OutWord {
    /// `float`
    Float,
    /// `double`
    Double,
    /// `fix`
    Fix,
    /// `ufix`
    Ufix,
    /// `record`
    Record,
    /// `import`
    Import,
    /// `decor`
    Decor,
    /// `return`
    Return,
}

/// What a token is.
#[derive(Debug, Drop)]
pub enum TokenKind {
    /// A name: an ASCII letter or `_`, then ASCII letters, digits and `_`, and none of the words.
    Name(Name),
    /// A number, decimal or hexadecimal.
    Number(u64),
    /// A word that the language keeps out.
    Out(OutWord),
    /// `decl`
    Decl,
    /// `def`
    Def,
    /// `let`
    Let,
    /// `view`
    View,
    /// `shrink`
    Shrink,
    /// `suffix`
    Suffix,
    /// `shift`
    Shift,
    /// `split`
    Split,
    /// `by`
    By,
    /// `for`
    For,
    /// `while`
    While,
    /// `if`
    If,
    /// `else`
    Else,
    /// `unroll`
    Unroll,
    /// `combine`
    Combine,
    /// `bank`
    Bank,
    /// `bit`
    Bit,
    /// `ubit`
    Ubit,
    /// `bool`
    Bool,
    /// `true`
    True,
    /// `false`
    False,
    /// `as`
    As,
    /// `(`
    OpenParen,
    /// `)`
    CloseParen,
    /// `[`
    OpenBracket,
    /// `]`
    CloseBracket,
    /// `{`
    OpenBrace,
    /// `}`
    CloseBrace,
    /// `,`
    Comma,
    /// `;`
    Semicolon,
    /// `:`
    Colon,
    /// `..`
    Range,
    /// `---`
    Dashes,
    /// `:=`
    Becomes,
    /// `=`
    Assign,
    /// `==`
    Equal,
    /// `!=`
    NotEqual,
    /// `<`
    Less,
    /// `>`
    Greater,
    /// `<=`
    LessEqual,
    /// `>=`
    GreaterEqual,
    /// `<<`
    ShiftLeft,
    /// `>>`
    ShiftRight,
    /// `+`
    Plus,
    /// `-`
    Minus,
    /// `*`
    Star,
    /// `/`
    Slash,
    /// `%`
    Percent,
    /// `&`
    Ampersand,
    /// `|`
    Bar,
    /// `^`
    Caret,
    /// `&&`
    And,
    /// `||`
    Or,
    /// `+=`
    PlusAssign,
    /// `-=`
    MinusAssign,
    /// `*=`
    StarAssign,
    /// `/=`
    SlashAssign,
    /// The end of the text, after the last byte.
    End,
}

/// A token and where its first byte stands.
#[derive(Drop)]
pub struct Token {
    /// What it is.
    pub kind: TokenKind,
    /// The place of its first byte; that of `End` is the place after the last byte.
    pub place: Place,
}
