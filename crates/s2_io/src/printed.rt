//! The output of a command that holds it back.
ghost use Rattle.std.specs.Prelude.{◌≡◌, ◌≢◌, ◌+◌, Err};
ghost use Rattle.s2_mode.specs.Counts.{CanCount};
ghost use Rattle.s2_io.specs.Exits.{Prints};

use crate::exit::Exit;
use crate::fault::Fault;
use crate::line::Line;
use s2_mode::{CountedWrite, write_full};

/// Prints bytes, all at once, and returns this exit.
pub fn print<O: CountedWrite>(out: &mut O, exit: Exit, bytes: &[u8]) -> Result<Exit, Fault<'static>>
    requires { CanCount (O.count out.old) }
    ensures prints { Prints exit bytes.now result (O.contents out.old) (O.contents out.new) }
    ensures write { result ≡ Err Fault.Write → O.count out.new ≡ O.count out.old + 1 }
    ensures no_write { result ≢ Err Fault.Write → O.count out.new ≡ O.count out.old }
    ensures memory { result ≢ Err Fault.NoMemory }
{
    match write_full(out, bytes) {
        Ok(()) => Ok(exit),
        Err(_) => Err(Fault::Write),
    }
}

/// The line that a command prints, and its exit.
pub struct Printed {
    pub exit: Exit,
    pub text: Line,
}

impl Drop for Printed {
    fn drop(self) {
        let Printed { exit: _, text: _ } = self;
    }
}

impl Printed {
    /// Prints the line, all at once.
    pub fn print<O: CountedWrite>(self, out: &mut O) -> Result<Exit, Fault<'static>>
        requires { CanCount (O.count out.old) }
        ensures prints { Prints self.exit self.text result (O.contents out.old) (O.contents out.new) }
        ensures write { result ≡ Err Fault.Write → O.count out.new ≡ O.count out.old + 1 }
        ensures no_write { result ≢ Err Fault.Write → O.count out.new ≡ O.count out.old }
        ensures memory { result ≢ Err Fault.NoMemory }
    {
        print(out, self.exit, self.text.as_bytes())
    }
}
