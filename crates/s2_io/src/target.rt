//! Files that are written.
ghost use Rattle.std.specs.Prelude.{◌≡◌, ◌+◌, ◌<◌, ◌≤◌, Ok, IfOk, length};
ghost use Rattle.std.specs.Io.KnownBytes.{WriteAppends};
ghost use Rattle.s2_mode.specs.Counts.{CanCount, CountsFault};
ghost use Rattle.s2_io.specs.Known.{buffered_of, known_of};

use crate::explaining::{Explaining, Explains, write_some};
use crate::opened::Opened;
use crate::output::Output;
use either::{Either, Left, Right};
use s2_mode::{Counted, CountedWrite, WriteFault, write_full};
use std::fs::OpenFile;
use std::io;
use std::io::{BufWriter, Write};

/// An opened file with a buffer, or without one.
pub(crate) type MaybeBuffered<F, S> = Either<BufWriter<Opened<F, S>>, Opened<F, S>>;

/// A file that was opened for writing and is not truncated yet, or a standard stream. It counts its failed calls, and keeps the
/// error of the last one.
#[derive(Drop)]
pub struct Target<F: Write + Drop, S: Write + Drop> {
    to: MaybeBuffered<F, S>,
    holds: bool,
    failed: u64,
    cause: Option<io::Error>,
}

impl<F: Write + Drop, S: Write + Drop> Target<F, S> {
    /// `holds` says whether it is a regular file, which may have contents.
    pub(crate) fn new(to: MaybeBuffered<F, S>, holds: bool) -> Target<F, S>
        ensures { result.failed ≡ 0 }
    {
        Target {
            to,
            holds,
            failed: 0,
            cause: None,
        }
    }

    /// Writes the bytes that are still in the buffer. After a failed write nothing more is written. If it fails, it returns the
    /// error, if there is one.
    pub fn finish(self) -> Result<(), Option<io::Error>> {
        let Target {
            to,
            holds: _,
            failed,
            cause: _,
        } = self;
        let Left(buffered) = to else {
            return Ok(());
        };
        let (file, left) = buffered.into_parts();
        if failed > 0 {
            return Ok(());
        }
        let mut file = Explaining::new(file);
        match write_full(&mut file, &left) {
            Ok(()) => Ok(()),
            Err(_) => Err(file.cause()),
        }
    }

    /// Notes a failed call, and its error if there is one.
    fn fail(&mut self, cause: Option<io::Error>)
        requires { CanCount self.old.failed }
        ensures failed { self.new.failed ≡ self.old.failed + 1 }
        ensures same { self.new.to ≡ self.old.to }
    {
        self.failed = self.failed.saturating_add(1);
        self.cause = cause;
    }
}

impl<F: Write + Drop, S: Write + Drop> Explains for Target<F, S> {
    fn cause(&self) -> Option<io::Error> {
        self.cause
    }
}

impl<F: Write + Drop, S: Write + Drop> Counted for Target<F, S> {
    ghost count = { λ t. t.failed };

    fn count(&self) -> u64 {
        self.failed
    }
}

impl<F: Write + Drop, S: Write + Drop> CountedWrite for Target<F, S> {
    ghost use Rattle.s2_io.specs.Known.{buffered_of, known_of};

    ghost contents = { λ t. buffered_of (known_of F.contents S.contents) t.to };

    /// Writes once. If there are no bytes to write, the file is not called.
    fn write(&mut self, buf: &[u8]) -> Result<usize, WriteFault>
        requires { CanCount self.old.failed }
        ensures bound { IfOk result (λ n. n ≤ length buf.now) }
        ensures progress { IfOk result (λ n. 0 < length buf.now → 0 < n) }
        ensures bytes { WriteAppends (buffered_of (known_of F.contents S.contents) self.old.to)
            (buffered_of (known_of F.contents S.contents) self.new.to) result buf.now }
        ensures cause { CountsFault self.old.failed self.new.failed result }
        ensures empty { length buf.now ≡ 0 → (result ≡ Ok 0) × (self.new ≡ self.old) }
    {
        if buf.is_empty() {
            return Ok(0);
        }
        match write_some(&mut self.to, buf) {
            Ok(count) => Ok(count),
            Err(cause) => {
                self.fail(cause);
                Err(WriteFault)
            }
        }
    }
}

/// Truncates the file. Its buffer is empty so far.
fn cut<F: Write + OpenFile + Drop, S: Write + Drop>(to: &MaybeBuffered<F, S>) -> io::Result<()> {
    match to {
        Left(buffered) => buffered.get_ref().cut(),
        Right(file) => file.cut(),
    }
}

impl<F: Write + OpenFile + Drop, S: Write + Drop> Output for Target<F, S> {
    fn truncate(&mut self) -> Result<(), WriteFault> {
        if !self.holds {
            return Ok(());
        }
        match cut(&self.to) {
            Ok(()) => Ok(()),
            Err(error) => {
                self.fail(Some(error));
                Err(WriteFault)
            }
        }
    }
}
