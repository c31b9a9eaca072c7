//! How a run stands after a number of logical steps.

ghost use Rattle.std.specs.Prelude.{◌≡◌};
ghost use Rattle.dh_base.specs.Faults.{fault_name};

use crate::places::Place;

/// What can go wrong in a logical step of a checked program.
#[derive(Clone, Copy, Debug, PartialEq, Eq)]
pub enum FaultKind {
    /// An access whose index is not within its memory's sizes.
    OutOfRange,
}

impl FaultKind {
    /// Its name, as reports and texts have it.
    pub fn name(self) -> &'static str
        ensures { result.now ≡ fault_name self }
    {
        match self {
            FaultKind::OutOfRange => "OutOfRange",
        }
    }
}

/// How a run stands after a number of logical steps.
#[derive(Clone, Copy, Debug, PartialEq, Eq)]
pub enum Outcome {
    /// There is a next step.
    Going,
    /// No phase remains.
    Ended,
    /// The next step met this fault at this place, and made no write.
    Faulted {
        kind: FaultKind,
        place: Place,
    },
    /// The next step would have driven this bank beyond its ports, first at this place.
    Stuck {
        memory: u32,
        bank: u32,
        place: Place,
    },
}
