//! A reader or writer that keeps the cause of its last failed call.
ghost use Rattle.std.specs.Prelude.{◌≡◌, ◌<◌, ◌≤◌, Ok, IfOk, length};
ghost use Rattle.std.specs.Io.KnownBytes.{ReadConsumes, WriteAppends};
ghost use Rattle.s2_mode.specs.Counts.{CanCount, CountsFault};

use s2_mode::{Counted, CountedRead, CountedWrite, ReadFault, WriteFault};
use std::io;
use std::io::{Read, Write};

/// A reader or writer that knows why its last failed call failed.
pub trait Explains {
    /// The error of its last failed call. `None` if there is none, or if a writer took no bytes.
    fn cause(&self) -> Option<io::Error>;
}

/// A reader or writer of std. It counts its failed calls, and keeps the error of the last one.
#[derive(Drop)]
pub struct Explaining<T> {
    inner: T,
    failed: u64,
    cause: Option<io::Error>,
}

impl<T> Explaining<T> {
    /// No call has failed so far.
    pub fn new(inner: T) -> Explaining<T>
        ensures inner { result.inner ≡ inner }
        ensures none { result.failed ≡ 0 }
    {
        Explaining {
            inner,
            failed: 0,
            cause: None,
        }
    }
}

impl<T> Explains for Explaining<T> {
    fn cause(&self) -> Option<io::Error> {
        self.cause
    }
}

impl<T> Counted for Explaining<T> {
    ghost count = { λ e. e.failed };

    fn count(&self) -> u64 {
        self.failed
    }
}

impl<R: Read> CountedRead for Explaining<R> {
    ghost remaining = { λ e. R.remaining e.inner };

    /// Reads once. If the buffer is empty the reader is not called.
    fn read(&mut self, buf: &mut [u8]) -> Result<usize, ReadFault>
        requires { CanCount self.old.failed }
        ensures bound { IfOk result (λ n. n ≤ length buf.new) }
        ensures bytes { ReadConsumes (R.remaining self.old.inner) (R.remaining self.new.inner) result buf.new }
        ensures cause { CountsFault self.old.failed self.new.failed result }
        ensures empty { length buf.old ≡ 0 → (result ≡ Ok 0) × (self.new ≡ self.old) }
    {
        if buf.is_empty() {
            return Ok(0);
        }
        match self.inner.read(buf) {
            Ok(count) => Ok(count),
            Err(error) => {
                self.failed = self.failed.saturating_add(1);
                self.cause = Some(error);
                Err(ReadFault)
            }
        }
    }
}

/// Writes once, at least one byte. Returns the error if that fails, if there is one.
pub(crate) fn write_some<W: Write>(to: &mut W, buf: &[u8]) -> Result<usize, Option<io::Error>>
    ensures bound { IfOk result (λ n. n ≤ length buf.now) }
    ensures progress { IfOk result (λ n. 0 < length buf.now → 0 < n) }
    ensures bytes { WriteAppends (W.contents to.old) (W.contents to.new) result buf.now }
{
    match to.write(buf) {
        Ok(count) if count > 0 || buf.is_empty() => Ok(count),
        Ok(_) => Err(None),
        Err(error) => Err(Some(error)),
    }
}

impl<W: Write> CountedWrite for Explaining<W> {
    ghost contents = { λ e. W.contents e.inner };

    /// Writes once. If there are no bytes to write, the writer is not called.
    fn write(&mut self, buf: &[u8]) -> Result<usize, WriteFault>
        requires { CanCount self.old.failed }
        ensures bound { IfOk result (λ n. n ≤ length buf.now) }
        ensures progress { IfOk result (λ n. 0 < length buf.now → 0 < n) }
        ensures bytes { WriteAppends (W.contents self.old.inner) (W.contents self.new.inner) result buf.now }
        ensures cause { CountsFault self.old.failed self.new.failed result }
        ensures empty { length buf.now ≡ 0 → (result ≡ Ok 0) × (self.new ≡ self.old) }
    {
        if buf.is_empty() {
            return Ok(0);
        }
        match write_some(&mut self.inner, buf) {
            Ok(count) => Ok(count),
            Err(cause) => {
                self.failed = self.failed.saturating_add(1);
                self.cause = cause;
                Err(WriteFault)
            }
        }
    }
}
