//! Opened files.
use std::fs::OpenFile;
use std::io;
use std::io::{Read, Write};

/// A file that was opened by its name, or a standard stream.
#[derive(Drop)]
pub enum Opened<F, S> {
    File(F),
    Standard(S),
}

impl<F: OpenFile, S> Opened<F, S> {
    /// Truncates the file. A standard stream is unchanged, since it may hold more than its reader asked for.
    pub(crate) fn cut(&self) -> io::Result<()> {
        match self {
            Opened::File(file) => file.set_len(0),
            Opened::Standard(_) => Ok(()),
        }
    }
}

impl<F: Read, S: Read> Read for Opened<F, S> {
    ghost use Rattle.s2_io.specs.Known.{known_of};

    ghost remaining = { known_of F.remaining S.remaining };

    fn read(&mut self, buf: &mut [u8]) -> io::Result<usize> {
        match self {
            Opened::File(file) => file.read(buf),
            Opened::Standard(stream) => stream.read(buf),
        }
    }
}

impl<F: Write, S: Write> Write for Opened<F, S> {
    ghost use Rattle.s2_io.specs.Known.{known_of};

    ghost contents = { known_of F.contents S.contents };

    fn write(&mut self, buf: &[u8]) -> io::Result<usize> {
        match self {
            Opened::File(file) => file.write(buf),
            Opened::Standard(stream) => stream.write(buf),
        }
    }

    fn flush(&mut self) -> io::Result<()> {
        match self {
            Opened::File(file) => file.flush(),
            Opened::Standard(stream) => stream.flush(),
        }
    }
}
