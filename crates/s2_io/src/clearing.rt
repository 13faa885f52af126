//! A writer that clears the terminal's line first.
ghost use Rattle.std.specs.Prelude.{◌≡◌};

use crate::standard::StandardStreams;
use crate::terminal::Terminal;
use s2_mode::{Counted, CountedWrite, WriteFault};

/// A writer that clears the terminal's line before each write. In contracts, it is the inner writer.
#[derive(Drop)]
pub struct Clearing<'t, 'r, W, R> {
    inner: W,
    terminal: &'t Terminal<'r, R>,
    /// Whether it takes the lines of a report.
    is_report: bool,
}

impl<'t, 'r, W, R> Clearing<'t, 'r, W, R> {
    /// This writer, with the terminal whose line it clears.
    pub fn new(inner: W, terminal: &'t Terminal<'r, R>) -> Clearing<'t, 'r, W, R>
        ensures { result.inner ≡ inner }
    {
        Clearing {
            inner,
            terminal,
            is_report: false,
        }
    }

    /// The same for the lines of a report: the terminal knows by them when a frame came.
    pub fn reporting(inner: W, terminal: &'t Terminal<'r, R>) -> Clearing<'t, 'r, W, R>
        ensures { result.inner ≡ inner }
    {
        Clearing {
            inner,
            terminal,
            is_report: true,
        }
    }
}

impl<W: Counted, R> Counted for Clearing<'_, '_, W, R> {
    ghost count = { λ w. W.count w.inner };

    fn count(&self) -> u64 {
        self.inner.count()
    }
}

impl<W: CountedWrite, R: StandardStreams> CountedWrite for Clearing<'_, '_, W, R> {
    ghost contents = { λ w. W.contents w.inner };

    fn write(&mut self, buf: &[u8]) -> Result<usize, WriteFault> {
        if self.is_report {
            self.terminal.reported(buf);
        }
        self.terminal.clear();
        self.inner.write(buf)
    }
}
