//! Which texts are names.

ghost use Rattle.std.specs.Prelude.{◌↔◌, IsTrue, Contains, map};
ghost use Rattle.dh_tree.specs.Names.{IsLetter, IsNameByte, IsIdentifier, IsName, reserved};

use crate::tables::Name;

// Whether the byte is an ASCII letter or `_`.
fn is_letter(byte: u8) -> bool
    ensures { IsTrue result ↔ IsLetter byte }
{
    byte.is_ascii_uppercase() || byte.is_ascii_lowercase() || byte == b'_'
}

// Whether the byte may stand in a name after its first one.
fn is_name_byte(byte: u8) -> bool
    ensures { IsTrue result ↔ IsNameByte byte }
{
    is_letter(byte) || byte.is_ascii_digit()
}

// Whether the text begins with a letter and goes on with letters and digits.
fn is_word(text: &[u8]) -> bool
    ensures { IsTrue result ↔ IsIdentifier text.now }
{
    match text.split_first() {
        Some((first, rest)) => is_letter(*first) && rest.iter().all(|byte| is_name_byte(*byte)),
        None => false,
    }
}

// The words of the language, and the words that it keeps out.
const RESERVED: [&str; 30] = [
    "decl", "def", "let", "view", "shrink", "suffix", "shift", "split", "by", "for", "while", "if",
    "else", "unroll", "combine", "bank", "bit", "ubit", "bool", "true", "false", "as", "float",
    "double", "fix", "ufix", "record", "import", "decor", "return",
];

// Whether the text is one of the words.
fn is_one_of(text: &str, words: &[&str]) -> bool
    ensures { IsTrue result ↔ Contains (map (λ word. word.now) words.now) text.now }
{
    for word in words {
        if *word == text {
            return true;
        }
    }
    false
}

// Whether the text is a word of the language, or one that it keeps out.
fn is_reserved(text: &str) -> bool
    ensures { IsTrue result ↔ Contains reserved text.now }
{
    is_one_of(text, &RESERVED)
}

impl Name {
    /// Whether the text is a name of the language.
    pub fn is_valid(&self) -> bool
        ensures { IsTrue result ↔ IsName self.now }
    {
        is_word(self.as_str().as_bytes()) && !is_reserved(self.as_str())
    }
}
