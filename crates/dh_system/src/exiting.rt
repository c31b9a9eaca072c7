//! How the process ends.

ghost use Rattle.std.specs.Prelude.{◌≡◌};
ghost use Rattle.std.specs.Process.{exit_status};
ghost use Rattle.dh_base.specs.Statuses.{code_of};

use dh_base::Status;
use std::process::ExitCode;

/// The exit code of the process that ends so, from 0 to 9.
pub fn exit_code(status: Status) -> ExitCode
    ensures { exit_status result ≡ code_of status }
{
    ExitCode::from(status.code())
}
