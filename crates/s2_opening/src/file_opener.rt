//! Opens files by their names. A call on one of them that fails is noted.
ghost use Rattle.std.specs.Prelude.{◌≡◌, length};

use crate::noting::{Named, Noting};
use crate::opens::{Opens, Unserved};
use s2_io::{Disk, Fault, Opener, Reader, Role, StandardStreams, Target, Terminal};
use std::rt::Files;

/// An input before it has its name.
type Unnamed<R> = Reader<<R as Files>::File, <R as StandardStreams>::Input>;

/// An output before it has its name.
type UnnamedOutput<R> = Target<<R as Files>::File, <R as StandardStreams>::Output>;

/// Opens the files of a command. A call on one of them that fails is noted on a terminal.
pub struct FileOpener<'t, 'r, R> {
    opener: Opener<'r, R>,
    terminal: &'t Terminal<'r, R>,
}

impl<'t, 'r, R> Drop for FileOpener<'t, 'r, R> {
    fn drop(self) {
        let FileOpener {
            opener: _,
            terminal: _,
        } = self;
    }
}

impl<'t, 'r, R: Disk> FileOpener<'t, 'r, R> {
    /// No file is open.
    pub fn new(terminal: &'t Terminal<'r, R>) -> FileOpener<'t, 'r, R>
        ensures { length result.opener ≡ 0 }
    {
        FileOpener {
            opener: Opener::new(terminal.host()),
            terminal,
        }
    }

    /// A file whose failed calls are noted under a name.
    fn noted<'a, T>(&self, file: T, role: Role, name: &'a str) -> Noting<T, Named<'t, 'r, 'a, R>>
        ensures { result.inner ≡ file }
    {
        Noting::new(file, Named::new(self.terminal, role, name))
    }
}

/// Why a file was not opened. An opener reports no other fault than these three.
fn unopened<'a>(fault: Fault<'a>) -> Unserved<'a> {
    match fault {
        Fault::Open(name) => Unserved::Open(name),
        Fault::UsedTwice(name) => Unserved::UsedTwice(name),
        _ => Unserved::NoMemory,
    }
}

impl<'a, 't, 'r, R: Disk + AllocGlobal> Opens<'a> for FileOpener<'t, 'r, R> {
    ghost use Rattle.std.specs.Prelude.{length};

    type Input = Noting<Unnamed<R>, Named<'t, 'r, 'a, R>>;

    type Output = Noting<UnnamedOutput<R>, Named<'t, 'r, 'a, R>>;

    ghost opened = { λ o. length o.opener };

    fn read(&mut self, name: &'a str) -> Result<Self::Input, Unserved<'a>> {
        match self.opener.read(name) {
            Ok(file) => Ok(self.noted(file, Role::Input, name)),
            Err(fault) => Err(unopened(fault)),
        }
    }

    fn read_buffered(&mut self, name: &'a str) -> Result<Self::Input, Unserved<'a>> {
        match self.opener.read_buffered(name) {
            Ok(file) => Ok(self.noted(file, Role::Input, name)),
            Err(fault) => Err(unopened(fault)),
        }
    }

    fn write(&mut self, name: &'a str) -> Result<Self::Output, Unserved<'a>> {
        match self.opener.write(name) {
            Ok(file) => Ok(self.noted(file, Role::Output, name)),
            Err(fault) => Err(unopened(fault)),
        }
    }

    fn write_buffered(&mut self, name: &'a str) -> Result<Self::Output, Unserved<'a>> {
        match self.opener.write_buffered(name) {
            Ok(file) => Ok(self.noted(file, Role::Output, name)),
            Err(fault) => Err(unopened(fault)),
        }
    }

    fn last_length(&self) -> Option<u64> {
        self.opener.last_length()
    }
}
