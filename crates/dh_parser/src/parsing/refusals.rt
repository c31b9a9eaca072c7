//! By which rule a token is refused.

ghost use Rattle.std.specs.Prelude.{◌≡◌, if◌then◌else◌, false, List, ◌∷◌, ◌++◌, length};
ghost use Rattle.dh_base.specs.declared.faults.PassFault.TheVariants as fault;
ghost use Rattle.dh_lexer.specs.declared.tokens.Token.{Token};
ghost use Rattle.dh_parser.specs.Programs.{ends_before_width, is_kind_word, is_left_out, is_less, rule_at};

use dh_base::{PassFault, Rule};
use dh_lexer::{Token, TokenKind};

/// The refusal at this token, the first that no program has after those before it.
pub(crate) fn refusal(before: &[Token], token: &Token) -> PassFault
    ensures { result ≡ fault.Refused (rule_at before.now token.now) token.now.place }
{
    let rule = if is_left_out(before, &token.kind) {
        Rule::Unsupported
    } else {
        Rule::Syntax
    };
    PassFault::Refused {
        rule,
        place: token.place,
    }
}

/// Whether the token is one that the language leaves out, or stands for the width of a kind.
fn is_left_out(before: &[Token], kind: &TokenKind) -> bool
    ensures { result ≡ is_left_out before.now kind.now }
{
    match kind {
        TokenKind::Out(_) | TokenKind::Slash | TokenKind::Percent | TokenKind::SlashAssign => true,
        TokenKind::Number(_) => ends_before_width(before),
        _ => false,
    }
}

/// Whether the last two tokens are `bit <` or `ubit <`. After these words no other `<` stands.
fn ends_before_width(before: &[Token]) -> bool
    ensures { result ≡ ends_before_width before.now }
{
    let length = before.len();
    if length < 2 {
        return false;
    }
    is_width_start(&before[length - 2].kind, &before[length - 1].kind)
}

/// Whether these are `bit <` or `ubit <`.
fn is_width_start(word: &TokenKind, sign: &TokenKind) -> bool
    ensures { result ≡ (if is_kind_word word.now then is_less sign.now else false) }
{
    matches!(word, TokenKind::Bit | TokenKind::Ubit) && matches!(sign, TokenKind::Less)
}
