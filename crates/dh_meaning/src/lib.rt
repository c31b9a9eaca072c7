//! What programs mean: the core of a program, what its steps do at a list of copies in lockstep, its runs, and the
//! lengths of its steps in clocks. It has definitions, on which the interpreter, the rules on ports, the laws of
//! `dh_sound` and the compiler stand, and the functions that all of them call: how many turns a loop has, and how many
//! phases a command has by those of its parts.
#![tactic(auto)]

ghost use Rattle.std.specs.Prelude.{◌≡◌};
ghost use Rattle.dh_meaning.specs.Phases.{turn_count as turns_counted};

mod kinds;

pub use kinds::{kind_behind, kind_of_choice, kind_of_turns};

/// How many turns a loop has.
pub fn turn_count(low: u64, high: u64, factor: u64) -> u64
    ensures { result ≡ turns_counted low high factor }
{
    if factor == 0 {
        0
    } else {
        high.saturating_sub(low) / factor
    }
}
