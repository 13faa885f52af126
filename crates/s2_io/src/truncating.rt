//! Outputs that are truncated by their first write.
ghost use Rattle.std.specs.Prelude.{◌≡◌, ◌<◌, ◌≤◌, true, false, IfOk, IsOk, length};
ghost use Rattle.std.specs.Io.KnownBytes.{WriteAppends};
ghost use Rattle.s2_mode.specs.Counts.{CanCount, CountsFault};

use crate::output::Output;
use s2_mode::{Counted, CountedWrite, WriteFault};

/// An output that keeps its contents until its first write, which truncates it. Its contents and its count are those of
/// its writer.
pub struct Truncating<W> {
    to: W,
    begun: bool,
}

impl<W: Drop> Drop for Truncating<W> {
    fn drop(self) {
        let Truncating { to: _, begun: _ } = self;
    }
}

impl<W> Truncating<W> {
    /// An output that is not begun.
    pub fn new(to: W) -> Truncating<W>
        ensures unbegun { result.begun ≡ false }
        ensures same { result.to ≡ to }
    {
        Truncating { to, begun: false }
    }

    /// The writer, begun or not.
    pub fn into_inner(self) -> W
        ensures { result ≡ self.to }
    {
        let Truncating { to, begun: _ } = self;
        to
    }
}

impl<W: Output> Truncating<W> {
    /// Truncates the file, unless that was tried before. If it fails, the output counts as begun all the same.
    fn begin(&mut self) -> Result<(), WriteFault>
        requires { CanCount (W.count self.old.to) }
        ensures begun { self.new.begun ≡ true }
        ensures once { self.old.begun ≡ true → IsOk result × (self.new ≡ self.old) }
        ensures kept { W.contents self.new.to ≡ W.contents self.old.to }
        ensures cause { CountsFault (W.count self.old.to) (W.count self.new.to) result }
    {
        if self.begun {
            return Ok(());
        }
        self.begun = true;
        self.to.truncate()
    }

    /// Truncates the file if nothing was written. After a write, or a second time, it does nothing.
    pub fn finish(&mut self) -> Result<(), WriteFault>
        requires { CanCount (W.count self.old.to) }
        ensures begun { self.new.begun ≡ true }
        ensures once { self.old.begun ≡ true → IsOk result × (self.new ≡ self.old) }
        ensures kept { W.contents self.new.to ≡ W.contents self.old.to }
        ensures cause { CountsFault (W.count self.old.to) (W.count self.new.to) result }
    {
        self.begin()
    }
}

impl<W: Output> Counted for Truncating<W> {
    ghost count = { λ t. W.count t.to };

    fn count(&self) -> u64 {
        self.to.count()
    }
}

impl<W: Output> CountedWrite for Truncating<W> {
    ghost contents = { λ t. W.contents t.to };

    /// Writes once, and truncates the file before the first write. A failed truncation is a failed call.
    fn write(&mut self, buf: &[u8]) -> Result<usize, WriteFault>
        requires { CanCount (W.count self.old.to) }
        ensures bound { IfOk result (λ n. n ≤ length buf.now) }
        ensures progress { IfOk result (λ n. 0 < length buf.now → 0 < n) }
        ensures bytes { WriteAppends (W.contents self.old.to) (W.contents self.new.to) result buf.now }
        ensures cause { CountsFault (W.count self.old.to) (W.count self.new.to) result }
        ensures begun { self.new.begun ≡ true }
    {
        self.begin()?;
        self.to.write(buf)
    }
}
