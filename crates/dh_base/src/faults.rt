//! How a pass over a program ends where it gives no result.

ghost use Rattle.std.specs.Prelude.{◌≡◌};
ghost use Rattle.dh_base.specs.declared.faults.PassFault.TheVariants as fault;

use crate::lists::NoMemory;
use crate::places::Place;
use crate::rules::Rule;
use std::alloc::{AllocError, AllocFailed};

/// Why a pass over a program gave no result.
#[derive(Clone, Copy, Debug, PartialEq, Eq)]
pub enum PassFault {
    /// The program breaks a rule.
    Refused {
        /// The rule that is broken.
        rule: Rule,
        /// Where it is broken.
        place: Place,
    },
    /// Want of memory: an allocation was refused. No other failure is reported so.
    NoMemory,
}

impl From<NoMemory> for PassFault {
    ghost from_gives = { λ _ e. e ≡ fault.NoMemory };

    fn from(_refused: NoMemory) -> PassFault {
        PassFault::NoMemory
    }
}

impl From<AllocError> for PassFault {
    ghost from_gives = { λ _ e. e ≡ fault.NoMemory };

    fn from(_refused: AllocError) -> PassFault {
        PassFault::NoMemory
    }
}

impl<T: Drop> From<AllocFailed<T>> for PassFault {
    ghost from_gives = { λ _ e. e ≡ fault.NoMemory };

    fn from(_refused: AllocFailed<T>) -> PassFault {
        PassFault::NoMemory
    }
}
