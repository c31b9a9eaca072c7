//! The pass.

ghost use Rattle.std.specs.Prelude.{◌≡◌};
ghost use Rattle.dh_tree.specs.Ready.{IsReady};
ghost use Rattle.dh_tree.specs.Seen.{program_seen};
ghost use Rattle.dh_inline.specs.Inlined.{IsFlatOf};

use dh_tree::Typed;

/// A program without functions and calls.
#[derive(Clone, Copy)]
pub struct Flat<'a> {
    program: &'a Typed,
}

impl<'a> Flat<'a> {
    /// The program.
    pub fn typed(&self) -> &Typed
        ensures { result.now ≡ self.now.program.now }
    {
        self.program
    }
}

/// A program that is ready, with its calls substituted.
pub fn inline<'a>(program: &'a Typed) -> Flat<'a>
    requires { IsReady (program_seen program.now) }
    ensures { IsFlatOf (program_seen program.now) (program_seen result.program.now) }
{
    Flat { program }
}
