//! Readers and writers with a name for what one call returns.
ghost use Rattle.std.specs.Prelude.{◌<◌, ◌≤◌, ℕ, List, Option, Result, ⊤, length, IfOk};
ghost use Rattle.std.specs.Io.KnownBytes.{ReadConsumes, WriteAppends};
ghost use Rattle.s2_mode.specs.declared.counts.ReadFault.{ReadFault};
ghost use Rattle.s2_mode.specs.declared.counts.WriteFault.{WriteFault};

use crate::counts::{ReadFault, WriteFault};
use std::io::{Read, Write};

/// A reader. `answers` relates its state before and after a call, the result, and what the buffer then holds.
/// So a wrapper can promise that it made a call and returned that call's result.
pub trait RawRead {
    ghost left: { Self → Option (List ℕ) };

    ghost answers: { Self → Self → Result ℕ ReadFault → List ℕ → Type 0 };

    fn read_once(&mut self, buf: &mut [u8]) -> Result<usize, ReadFault>
        ensures bound { IfOk result (λ n. n ≤ length buf.new) }
        ensures bytes { ReadConsumes (left self.old) (left self.new) result buf.new }
        ensures answers { answers self.old self.new result buf.new };
}

/// A writer. `answers` relates its state before and after a call, the result, and the bytes to write.
pub trait RawWrite {
    ghost taken: { Self → Option (List ℕ) };

    ghost answers: { Self → Self → Result ℕ WriteFault → List ℕ → Type 0 };

    /// Takes at least one byte of a slice that is not empty, or else fails.
    fn write_once(&mut self, buf: &[u8]) -> Result<usize, WriteFault>
        ensures bound { IfOk result (λ n. n ≤ length buf.now) }
        ensures progress { IfOk result (λ n. 0 < length buf.now → 0 < n) }
        ensures bytes { WriteAppends (taken self.old) (taken self.new) result buf.now }
        ensures answers { answers self.old self.new result buf.now };
}

/// Each reader of std. Its contract has no name for what a call returns.
impl<R: Read> RawRead for R {
    ghost left = { R.remaining };

    ghost answers = { λ old new answer bytes. ⊤ };

    fn read_once(&mut self, buf: &mut [u8]) -> Result<usize, ReadFault> {
        self.read(buf).map_err(|_| ReadFault)
    }
}

/// Each writer of std. Its contract has no name for what a call returns.
impl<W: Write> RawWrite for W {
    ghost taken = { W.contents };

    ghost answers = { λ old new answer bytes. ⊤ };

    fn write_once(&mut self, buf: &[u8]) -> Result<usize, WriteFault> {
        match self.write(buf) {
            Ok(n) if n > 0 || buf.is_empty() => Ok(n),
            _ => Err(WriteFault),
        }
    }
}
