//! How a command ends.
ghost use Rattle.std.specs.Prelude.{◌≡◌};
ghost use Rattle.std.specs.Process.{exit_status};
ghost use Rattle.s2_io.specs.Exits.{status_of};

use std::process::ExitCode;

/// How a command ends.
#[derive(Clone, Copy, Debug, PartialEq, Eq)]
pub enum Exit {
    /// Success.
    Fine,
    /// A usage error, or an error reported on standard error.
    Fault,
    /// The answer is no, or a word is not proved most likely.
    No,
}

impl Exit {
    /// The exit code of the program: 0, 1 or 2.
    pub fn code(self) -> ExitCode
        ensures { exit_status result ≡ status_of self }
    {
        match self {
            Exit::Fine => ExitCode::SUCCESS,
            Exit::Fault => ExitCode::FAILURE,
            Exit::No => ExitCode::from(2),
        }
    }
}
