//! The output of a command, and its errors.
ghost use Rattle.std.specs.Prelude.{◌≡◌, ◌≢◌, ◌≤◌, IsOk, Err};
ghost use Rattle.s2_mode.specs.Counts.{CanCount};
ghost use Rattle.s2_io.specs.Exits.{exit_of, Complains};
ghost use Rattle.s2_io.specs.Screens.{screen_of};

use crate::exit::Exit;
use crate::fault::{Fault, write_fault};
use s2_mode::CountedWrite;
use std::marker::Model;

/// The output of a command, and its errors. In contracts, it is the contents of both, and how many calls of
/// each have failed.
#[derive(Drop)]
pub struct Console<O: CountedWrite, E: CountedWrite> {
    pub output: O,
    pub errors: E,
}

impl<O: CountedWrite, E: CountedWrite> Model for Console<O, E> {
    ghost use Rattle.s2_io.specs.Screens.{Screen, screen_of};

    ghost Value = { Screen };

    ghost view = { λ c. screen_of (O.contents c.output) (O.count c.output) (E.contents c.errors) (E.count c.errors) };
}

impl<O: CountedWrite, E: CountedWrite> Console<O, E> {
    pub fn new(output: O, errors: E) -> Console<O, E>
        ensures { result ≡ screen_of (O.contents output) (O.count output) (E.contents errors) (E.count errors) }
    {
        Console { output, errors }
    }

    /// Prints a fault's line on the errors. If the line cannot be written, nothing more is done.
    pub fn report_fault(&mut self, fault: Fault<'_>) -> Exit
        requires { CanCount self.old.errors_failed }
        ensures exit { result ≡ Exit.Fault }
        ensures output { self.new.output ≡ self.old.output }
        ensures output_failed { self.new.output_failed ≡ self.old.output_failed }
        ensures counted { self.old.errors_failed ≤ self.new.errors_failed }
        ensures told { Complains (Err fault.entry) self.old self.new }
    {
        let _ = write_fault(&mut self.errors, fault);
        Exit::Fault
    }

    /// The exit of a command with this result. A fault's line is printed on the errors.
    pub fn finish(&mut self, ended: Result<Exit, Fault<'_>>) -> Exit
        requires { CanCount self.old.errors_failed }
        ensures exit { result ≡ exit_of ended.entry }
        ensures fine { result ≢ Exit.Fault → IsOk ended.entry }
        ensures quiet { result ≢ Exit.Fault → self.new.errors_failed ≡ self.old.errors_failed }
        ensures output { self.new.output ≡ self.old.output }
        ensures output_failed { self.new.output_failed ≡ self.old.output_failed }
        ensures told { Complains ended.entry self.old self.new }
    {
        match ended {
            Ok(exit) => exit,
            Err(fault) => self.report_fault(fault),
        }
    }
}
