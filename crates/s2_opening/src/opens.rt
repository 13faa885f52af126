//! What opens the files of a command.
ghost use Rattle.std.specs.Prelude.{◌≡◌, ◌+◌, ◌<◌, ℕ, IfOk, OnOk};

use s2_io::Output;
use s2_mode::{CountedRead, WriteFault};

/// Why the command of a request is not run, or has not ended well, apart from its own faults.
#[derive(Clone, Copy)]
pub enum Unserved<'a> {
    /// The file of this name cannot be opened or made.
    Open(&'a str),
    /// The file of this name is used twice.
    UsedTwice(&'a str),
    NoMemory,
    /// A row file that is read before its command cannot be read.
    Read,
    /// The rest of an output cannot be written.
    Write,
    /// The symbols are to be read twice, and come from a stream.
    ReadOnce,
    /// The row file is to be read twice, and comes from a stream.
    RowsReadOnce,
    /// The standard has no mode with these numbers.
    NoMode,
    /// No code has a shape with these numbers.
    NoShape,
    /// A number of the command line is out of its range. The parser has refused such numbers.
    OutOfRange,
}

/// An output that may have a buffer.
pub trait Finishes {
    /// Writes the bytes that are still in the buffer. After a failed write nothing more is written.
    fn finish(self) -> Result<(), WriteFault>;
}

/// It opens the files of a command by their names, at most 12, each once. To contracts it is the number of files that it has
/// opened.
pub trait Opens<'a> {
    /// An opened input.
    type Input: CountedRead + Drop;

    /// An opened output. It is not truncated.
    type Output: Output + Finishes + Drop;

    ghost opened: { Self → ℕ };

    /// Opens an input.
    fn read(&mut self, name: &'a str) -> Result<Self::Input, Unserved<'a>>
        requires room { opened self.old < 12 }
        ensures fresh { IfOk result (λ file. Self.Input.count file ≡ 0) }
        ensures count { OnOk result (opened self.new ≡ opened self.old + 1) };

    /// Opens an input with a buffer.
    fn read_buffered(&mut self, name: &'a str) -> Result<Self::Input, Unserved<'a>>
        requires room { opened self.old < 12 }
        ensures fresh { IfOk result (λ file. Self.Input.count file ≡ 0) }
        ensures count { OnOk result (opened self.new ≡ opened self.old + 1) };

    /// Opens an output.
    fn write(&mut self, name: &'a str) -> Result<Self::Output, Unserved<'a>>
        requires room { opened self.old < 12 }
        ensures fresh { IfOk result (λ file. Self.Output.count file ≡ 0) }
        ensures count { OnOk result (opened self.new ≡ opened self.old + 1) };

    /// Opens an output with a buffer.
    fn write_buffered(&mut self, name: &'a str) -> Result<Self::Output, Unserved<'a>>
        requires room { opened self.old < 12 }
        ensures fresh { IfOk result (λ file. Self.Output.count file ≡ 0) }
        ensures count { OnOk result (opened self.new ≡ opened self.old + 1) };

    /// The length of the file that was opened last, if it is a regular file that was opened by its name.
    fn last_length(&self) -> Option<u64>;
}
