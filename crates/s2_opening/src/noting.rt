//! Readers and writers whose failed calls are noted at once, with the name of their file and the cause. This is plain code.
ghost use Rattle.std.specs.Prelude.{◌≡◌};

use crate::opens::Finishes;
use s2_io::{Disk, Explains, Output, Role, Target, Terminal, is_standard};
use s2_mode::{Counted, CountedRead, CountedWrite, ReadFault, WriteFault};
use s2_notes::note_failure;
use std::io;
use std::io::Write;

/// It notes why calls fail.
pub trait Notes {
    /// Notes the error of a failed call, if there is one.
    fn note(&self, cause: Option<io::Error>);
}

/// The name under which the failed calls of a file are noted on a terminal.
#[derive(Drop)]
pub struct Named<'t, 'r, 'a, R> {
    terminal: &'t Terminal<'r, R>,
    name: &'a str,
}

impl<'t, 'r, 'a, R: Disk> Named<'t, 'r, 'a, R> {
    /// A name on the command line, or that of its standard stream.
    pub fn new(terminal: &'t Terminal<'r, R>, role: Role, name: &'a str) -> Named<'t, 'r, 'a, R> {
        Named {
            terminal,
            name: shown_name(role, name),
        }
    }
}

/// This name, or that of the standard stream.
fn shown_name<'a>(role: Role, name: &'a str) -> &'a str {
    if !is_standard(role, name) {
        return name;
    }
    match role {
        Role::Input => "standard input",
        Role::Output => "standard output",
    }
}

impl<R: Disk + AllocGlobal> Notes for Named<'_, '_, '_, R> {
    fn note(&self, cause: Option<io::Error>) {
        if let Some(error) = cause {
            note_failure(self.terminal, self.name, error);
        }
    }
}

/// A reader or writer whose failed calls are noted. To contracts it is the reader or writer that it holds.
pub struct Noting<T, N> {
    inner: T,
    notes: N,
}

impl<T: Drop, N: Drop> Drop for Noting<T, N> {
    fn drop(self) {
        let Noting { inner: _, notes: _ } = self;
    }
}

impl<T, N> Noting<T, N> {
    /// This reader or writer.
    pub fn new(inner: T, notes: N) -> Noting<T, N>
        ensures { result.inner ≡ inner }
    {
        Noting { inner, notes }
    }
}

impl<F: Write + Drop, S: Write + Drop, N: Notes + Drop> Finishes for Noting<Target<F, S>, N> {
    fn finish(self) -> Result<(), WriteFault> {
        let Noting { inner, notes } = self;
        match inner.finish() {
            Ok(()) => Ok(()),
            Err(cause) => {
                notes.note(cause);
                Err(WriteFault)
            }
        }
    }
}

impl<T: Counted, N> Counted for Noting<T, N> {
    ghost count = { λ n. T.count n.inner };

    fn count(&self) -> u64 {
        self.inner.count()
    }
}

impl<T: CountedRead + Explains, N: Notes> CountedRead for Noting<T, N> {
    ghost remaining = { λ n. T.remaining n.inner };

    fn read(&mut self, buf: &mut [u8]) -> Result<usize, ReadFault> {
        let ended = self.inner.read(buf);
        if ended.is_err() {
            self.notes.note(self.inner.cause());
        }
        ended
    }
}

impl<T: CountedWrite + Explains, N: Notes> CountedWrite for Noting<T, N> {
    ghost contents = { λ n. T.contents n.inner };

    fn write(&mut self, buf: &[u8]) -> Result<usize, WriteFault> {
        let ended = self.inner.write(buf);
        if ended.is_err() {
            self.notes.note(self.inner.cause());
        }
        ended
    }
}

impl<T: Output + Explains, N: Notes> Output for Noting<T, N> {
    fn truncate(&mut self) -> Result<(), WriteFault> {
        let ended = self.inner.truncate();
        if ended.is_err() {
            self.notes.note(self.inner.cause());
        }
        ended
    }
}
