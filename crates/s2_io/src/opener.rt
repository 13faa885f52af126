//! Files opened, each once.
ghost use Rattle.std.specs.Prelude.{◌≡◌, ◌+◌, ◌<◌, [], IfOk, OnOk, length};

use crate::disk::{Disk, open_input, open_output, standard_node, stat};
use crate::explaining::Explaining;
use crate::fault::Fault;
use crate::opened::Opened;
use crate::standard::is_standard;
use crate::target::Target;
use crate::uses::{Role, Use, clashes_any};
use arrayvec::ArrayVec;
use either::{Either, Left, Right};
use std::io::{BufReader, BufWriter};
use std::marker::Model;

/// The most files of a command.
pub const MAX_FILES: usize = 12;

/// An input with a buffer, or without one if there was no memory for it or none is wanted. It counts its failed calls, and keeps
/// the error of the last one.
pub type Reader<F, S> = Explaining<Either<BufReader<Opened<F, S>>, Opened<F, S>>>;

/// Opens files, each once. To contracts it is how each file that was opened is used, in order.
pub struct Opener<'r, R> {
    rt: &'r R,
    uses: ArrayVec<Use, MAX_FILES>,
    length: Option<u64>,
}

impl<'r, R> Drop for Opener<'r, R> {
    fn drop(self) {
        let Opener {
            rt: _,
            uses: _,
            length: _,
        } = self;
    }
}

impl<'r, R> Model for Opener<'r, R> {
    ghost use Rattle.std.specs.Prelude.{List};
    ghost use Rattle.s2_io.specs.declared.uses.Use.{Use};

    ghost Value = { List Use };

    ghost view = { λ o. o.uses.items };
}

impl<'r, R: Disk> Opener<'r, R> {
    /// No file is open.
    pub fn new(rt: &'r R) -> Opener<'r, R>
        ensures { result ≡ [] }
    {
        Opener {
            rt,
            uses: ArrayVec::new(),
            length: None,
        }
    }

    /// The length of the file that was opened last, if it is a regular file that was opened by its name.
    pub fn last_length(&self) -> Option<u64> {
        self.length
    }

    /// Notes how a file is used, unless that clashes with those before it.
    fn take<'a>(&mut self, name: &'a str, new: Use) -> Result<(), Fault<'a>>
        requires room { length self.old < 12 }
        ensures count { OnOk result (length self.new ≡ length self.old + 1) }
    {
        if clashes_any(self.uses.as_slice(), new) {
            return Err(Fault::UsedTwice(name));
        }
        self.uses.push(new);
        Ok(())
    }

    /// Notes the use of a standard stream, which has no length.
    fn take_standard<'a>(&mut self, role: Role, name: &'a str) -> Result<(), Fault<'a>>
        requires room { length self.old < 12 }
        ensures count { OnOk result (length self.new ≡ length self.old + 1) }
    {
        self.length = None;
        let node = standard_node(self.rt, role);
        self.take(
            name,
            Use {
                role,
                standard: true,
                node,
            },
        )
    }

    /// Notes the use and the length of a file that was opened by its name.
    fn take_file<'a>(&mut self, role: Role, name: &'a str, file: &R::File) -> Result<(), Fault<'a>>
        requires room { length self.old < 12 }
        ensures count { OnOk result (length self.new ≡ length self.old + 1) }
    {
        let Ok(stat) = stat(file) else {
            return Err(Fault::Open(name));
        };
        self.length = stat.length;
        self.take(
            name,
            Use {
                role,
                standard: false,
                node: stat.node,
            },
        )
    }

    /// Opens an input.
    fn input<'a>(&mut self, name: &'a str) -> Result<Opened<R::File, R::Input>, Fault<'a>>
        requires room { length self.old < 12 }
        ensures count { OnOk result (length self.new ≡ length self.old + 1) }
    {
        if is_standard(Role::Input, name) {
            self.take_standard(Role::Input, name)?;
            return Ok(Opened::Standard(self.rt.input()));
        }
        let Ok(file) = open_input(self.rt, name) else {
            return Err(Fault::Open(name));
        };
        self.take_file(Role::Input, name, &file)?;
        Ok(Opened::File(file))
    }

    /// Opens an output, which is not truncated.
    fn output<'a>(&mut self, name: &'a str) -> Result<Opened<R::File, R::Output>, Fault<'a>>
        requires room { length self.old < 12 }
        ensures count { OnOk result (length self.new ≡ length self.old + 1) }
    {
        if is_standard(Role::Output, name) {
            self.take_standard(Role::Output, name)?;
            return Ok(Opened::Standard(self.rt.output()));
        }
        let Ok(file) = open_output(self.rt, name) else {
            return Err(Fault::Open(name));
        };
        self.take_file(Role::Output, name, &file)?;
        Ok(Opened::File(file))
    }

    /// Opens an input without a buffer.
    pub fn read<'a>(&mut self, name: &'a str) -> Result<Reader<R::File, R::Input>, Fault<'a>>
        requires room { length self.old < 12 }
        ensures fresh { IfOk result (λ file. file.failed ≡ 0) }
        ensures count { OnOk result (length self.new ≡ length self.old + 1) }
    {
        Ok(Explaining::new(Right(self.input(name)?)))
    }

    /// Opens an output without a buffer. It is not truncated.
    pub fn write<'a>(&mut self, name: &'a str) -> Result<Target<R::File, R::Output>, Fault<'a>>
        requires room { length self.old < 12 }
        ensures fresh { IfOk result (λ file. file.failed ≡ 0) }
        ensures count { OnOk result (length self.new ≡ length self.old + 1) }
    {
        let file = self.output(name)?;
        Ok(Target::new(Right(file), self.length.is_some()))
    }
}

/// Gives an input a buffer, if there is memory for it. The buffer is made around standard input first: without memory,
/// its reader is dropped.
fn buffered<R: Disk + AllocGlobal>(
    rt: &R,
    file: Opened<R::File, R::Input>,
) -> Either<BufReader<Opened<R::File, R::Input>>, Opened<R::File, R::Input>> {
    match BufReader::new(rt.alloc(), Opened::Standard(rt.input())) {
        Ok(mut buffer) => {
            *buffer.get_mut() = file;
            Left(buffer)
        }
        Err(_) => Right(file),
    }
}

impl<'r, R: Disk + AllocGlobal> Opener<'r, R> {
    /// Opens an input with a buffer; without one if there is no memory for it.
    pub fn read_buffered<'a>(
        &mut self,
        name: &'a str,
    ) -> Result<Reader<R::File, R::Input>, Fault<'a>>
        requires room { length self.old < 12 }
        ensures fresh { IfOk result (λ file. file.failed ≡ 0) }
        ensures count { OnOk result (length self.new ≡ length self.old + 1) }
    {
        let file = self.input(name)?;
        Ok(Explaining::new(buffered(self.rt, file)))
    }

    /// Opens an output with a buffer. It is not truncated.
    pub fn write_buffered<'a>(
        &mut self,
        name: &'a str,
    ) -> Result<Target<R::File, R::Output>, Fault<'a>>
        requires room { length self.old < 12 }
        ensures fresh { IfOk result (λ file. file.failed ≡ 0) }
        ensures count { OnOk result (length self.new ≡ length self.old + 1) }
    {
        let file = self.output(name)?;
        let Ok(buffered) = BufWriter::new(self.rt.alloc(), file) else {
            return Err(Fault::NoMemory);
        };
        Ok(Target::new(Left(buffered), self.length.is_some()))
    }
}
