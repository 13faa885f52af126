//! Outputs, whose files may have contents from before.
ghost use Rattle.std.specs.Prelude.{◌≡◌, true, false};
ghost use Rattle.s2_mode.specs.Counts.{CanCount, CountsFault};
ghost use Rattle.s2_io.specs.Lending.{LendsWriter};
ghost use Rattle.std.specs.Borrow.{sem};

use s2_mode::{CountedWrite, Counting, WriteFault};
use std::io::Write;

/// A writer to a file that may have contents from before.
pub trait Output: CountedWrite {
    /// Truncates the file. The contents of the writer are unchanged.
    fn truncate(&mut self) -> Result<(), WriteFault>
        requires { CanCount (Self.count self.old) }
        ensures kept { Self.contents self.new ≡ Self.contents self.old }
        ensures cause { CountsFault (Self.count self.old) (Self.count self.new) result };
}

/// Memory has no contents from before.
impl<W: Write> Output for Counting<W> {
    fn truncate(&mut self) -> Result<(), WriteFault> {
        Ok(())
    }
}

/// An output of a command. It keeps its contents until the command begins to write, which it does once. Nothing can be
/// written before.
#[derive(Drop)]
pub struct Destination<W> {
    to: W,
    begun: bool,
}

impl<W> Destination<W> {
    /// An output that is not begun.
    pub fn new(to: W) -> Destination<W>
        ensures unbegun { result.begun ≡ false }
        ensures same { result.to ≡ to }
    {
        Destination { to, begun: false }
    }

    /// The writer of an output that is begun.
    pub fn writer(&mut self) -> &mut W
        requires begun { self.old.begun ≡ true }
        ensures* writes_back { sem 𝓛 (LendsWriter W.row self.entry result) }
        ensures same { result.now ≡ self.old.to }
    {
        &mut self.to
    }

    /// Whether it is begun.
    pub fn is_begun(&self) -> bool
        ensures { result ≡ self.now.begun }
    {
        self.begun
    }

    /// The writer, begun or not.
    pub fn into_inner(self) -> W
        ensures { result ≡ self.to }
    {
        self.to
    }
}

impl<W: Output> Destination<W> {
    /// Truncates the file. If that fails, the output counts as begun all the same.
    pub fn truncate(&mut self) -> Result<(), WriteFault>
        requires once { self.old.begun ≡ false }
        requires count { CanCount (W.count self.old.to) }
        ensures begun { self.new.begun ≡ true }
        ensures kept { W.contents self.new.to ≡ W.contents self.old.to }
        ensures cause { CountsFault (W.count self.old.to) (W.count self.new.to) result }
    {
        self.begun = true;
        self.to.truncate()
    }
}
