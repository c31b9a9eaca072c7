//! How much room a list is given before it is read, so that most lists are made once, of their size. It is told
//! by the tokens, at a glance: a list that turns out longer grows, and one that turns out shorter gives back.

ghost use Rattle.std.specs.Prelude.{◌≡◌};

use crate::parsing::reading::{Mark, is_mark};
use dh_lexer::{Token, TokenKind};

/// Where a count of commands ends: a list of more grows as it is read.
const ENOUGH: usize = 4;

/// How many commands the part that begins here has, as far as the first that ends with a block.
pub(crate) fn commands_in_sight(tokens: &[Token]) -> usize {
    let mut seen: usize = 0;
    let mut begins = true;
    for token in tokens {
        match &token.kind {
            TokenKind::Semicolon => begins = true,
            TokenKind::Dashes | TokenKind::CloseBrace | TokenKind::End => return seen,
            kind => {
                if begins {
                    seen = seen.saturating_add(1);
                    begins = false;
                    if seen == ENOUGH || ends_with_block(kind) {
                        return seen;
                    }
                }
            }
        }
    }
    seen
}

/// Whether the command that begins with this token ends with a block.
fn ends_with_block(kind: &TokenKind) -> bool {
    matches!(
        kind,
        TokenKind::OpenBrace | TokenKind::If | TokenKind::While | TokenKind::For
    )
}

/// How many indices stand here, as far as the first of more than one token.
pub(crate) fn indices_in_sight(tokens: &[Token]) -> usize {
    let mut seen: usize = 0;
    let mut rest = tokens;
    while let [opening, _, closing, after @ ..] = rest {
        if !is_mark(&opening.kind, Mark::OpenBracket) {
            return seen;
        }
        seen = seen.saturating_add(1);
        if !is_mark(&closing.kind, Mark::CloseBracket) {
            return seen;
        }
        rest = after;
    }
    seen
}

/// Room for one more in a list of one: two is what most of such have in the end. Where it is refused, the push
/// that follows says so.
#[inline(never)]
pub(crate) fn room_for_second<T>(list: &mut Vec<T>)
    ensures { list.new.items ≡ list.old.items }
{
    if list.len() == 1 {
        let _made = list.reserve_exact(1);
    }
}
