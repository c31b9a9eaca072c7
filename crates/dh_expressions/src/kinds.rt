//! What the makers of operations ask of expressions and numbers.

ghost use Rattle.std.specs.Prelude.{◌≡◌};
ghost use Rattle.dh_tree.specs.Seen.{term_seen};
ghost use Rattle.dh_expressions.specs.Numbers.{narrowed};
ghost use Rattle.dh_expressions.specs.Shown.{is_read_term};

use dh_tree::{Expr, ExprForm};

/// Whether an expression is a read: what memories hold need be no word of their kind.
#[tactic(auto, using(dh_tree::proofs::SeenTerms::terms_are))]
pub fn is_read(value: &Expr) -> bool
    ensures { result ≡ is_read_term (term_seen value.now) }
{
    match &value.form {
        ExprForm::Access { .. } => true,
        ExprForm::Physical { .. } => true,
        ExprForm::Number { .. } => false,
        ExprForm::Truth { .. } => false,
        ExprForm::Variable { .. } => false,
        ExprForm::Binary { .. } => false,
        ExprForm::Cast { .. } => false,
    }
}

/// A number of 64 bits in 32. (Where it can't be kept, there are more things than memory holds.)
pub fn narrow(number: u64) -> u32
    ensures { result ≡ narrowed number }
{
    if number < 4294967296 {
        number as u32
    } else {
        u32::MAX
    }
}
