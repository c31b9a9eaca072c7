//! The variables of one view.

ghost use Rattle.std.specs.Prelude.{◌≡◌, [], ◌∷◌, length};

use crate::ways::Hidden;
use dh_base::Items;
use std::marker::Model;

/// Variables as they are held.
#[derive(Drop)]
pub(crate) enum Held {
    Alone([Hidden; 1]),
    All(Items<Hidden>),
}

/// The variables of a view. One alone takes no memory of its own: most views that move have one dimension. A contract
/// sees them as a list.
#[derive(Drop)]
pub(crate) struct Own {
    held: Held,
}

impl Model for Own {
    ghost use Rattle.std.specs.Prelude.{List};
    ghost use Rattle.dh_ways.specs.declared.ways.Hidden.{Hidden};
    ghost use Rattle.dh_ways.specs.OwnVariables.{held_variables};

    ghost Value = { List Hidden };

    ghost view = { λ o. held_variables o.held };
}

impl Own {
    /// One alone.
    pub(crate) fn alone(hidden: Hidden) -> Own
        ensures { result ≡ hidden ∷ [] }
    {
        Own {
            held: Held::Alone([hidden]),
        }
    }

    /// These.
    pub(crate) fn of(all: Items<Hidden>) -> Own
        ensures { result ≡ all }
    {
        Own {
            held: Held::All(all),
        }
    }

    /// They, in order.
    pub(crate) fn as_slice(&self) -> &[Hidden]
        ensures { result.now ≡ self.now }
    {
        match &self.held {
            Held::Alone(one) => one,
            Held::All(all) => all.as_slice(),
        }
    }

    /// How many there are.
    pub(crate) fn len(&self) -> usize
        ensures { result ≡ length self.now }
    {
        let all = self.as_slice();
        all.len()
    }
}
