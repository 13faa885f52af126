//! `--every N`: a report with only some of its lines, and totals instead of the others. This is plain code.
ghost use Rattle.std.specs.Prelude.{◌≡◌, None};
ghost use Rattle.s2_mode.specs.Counts.{CanCount, CountsFault};

use s2_io::Line;
use s2_mode::{Counted, CountedWrite, WriteFault, write_full};

/// The number of frames so far, of those delivered, and of those of them that are certified.
#[derive(Clone, Copy)]
struct FrameSums {
    frames: u64,
    delivered: u64,
    certified: u64,
}

impl FrameSums {
    fn none() -> FrameSums {
        FrameSums {
            frames: 0,
            delivered: 0,
            certified: 0,
        }
    }

    /// The totals with the frame of one more line.
    fn with_line(self, line: &str) -> FrameSums {
        let delivered = line.contains(" fixed ");
        let certified = line.contains(" sole ") || line.contains(" most-likely ");
        FrameSums {
            frames: self.frames.saturating_add(1),
            delivered: self.delivered.saturating_add(u64::from(delivered)),
            certified: self
                .certified
                .saturating_add(u64::from(delivered && certified)),
        }
    }

    /// Whether the number of frames is a multiple of N.
    fn are_due(self, every: u32) -> bool {
        every != 0 && self.frames % u64::from(every) == 0
    }

    /// The line of totals.
    fn line(self) -> Line {
        let mut line = Line::new();
        line.push_number("sum frames ", self.frames);
        line.push_number(" delivered ", self.delivered);
        line.push_number(" certified ", self.certified);
        line.push("\n");
        line
    }
}

/// A writer of a report that passes on the lines of every N-th frame and of frames that are not delivered, and all
/// lines of other kinds. After every N frames it adds a line of totals. The first line has N. If N is 0, it passes on
/// everything.
///
/// In contracts, it has the failed calls of the inner writer; its bytes are not known.
#[derive(Drop)]
pub struct Thinned<W> {
    inner: W,
    every: u32,
    is_begun: bool,
    sums: FrameSums,
}

impl<W> Thinned<W> {
    /// No line so far.
    pub fn new(inner: W, every: u32) -> Thinned<W>
        ensures { result.inner ≡ inner }
    {
        Thinned {
            inner,
            every,
            is_begun: false,
            sums: FrameSums::none(),
        }
    }
}

impl<W: CountedWrite> Thinned<W> {
    /// Writes the first line.
    fn begin(&mut self) -> Result<(), WriteFault>
        requires { CanCount (W.count self.old.inner) }
        ensures { CountsFault (W.count self.old.inner) (W.count self.new.inner) result }
    {
        if self.is_begun {
            return Ok(());
        }
        self.is_begun = true;
        let mut line = Line::new();
        line.push_number("every ", self.every);
        line.push("\n");
        write_full(&mut self.inner, line.as_bytes())
    }

    /// Passes on the line of a frame or drops it, and writes the totals if they are due.
    fn take_frame(&mut self, line: &str) -> Result<(), WriteFault>
        requires { CanCount (W.count self.old.inner) }
        ensures { CountsFault (W.count self.old.inner) (W.count self.new.inner) result }
    {
        let before = self.sums;
        self.sums = before.with_line(line);
        let is_due = self.sums.are_due(self.every);
        if is_due || self.sums.delivered == before.delivered {
            write_full(&mut self.inner, line.as_bytes())?;
        }
        if is_due {
            write_full(&mut self.inner, self.sums.line().as_bytes())?;
        }
        Ok(())
    }

    /// Passes on a line, or drops it.
    fn take(&mut self, line: &[u8]) -> Result<(), WriteFault>
        requires { CanCount (W.count self.old.inner) }
        ensures { CountsFault (W.count self.old.inner) (W.count self.new.inner) result }
    {
        self.begin()?;
        match str::from_utf8(line) {
            Ok(text) if text.starts_with("frame ") => self.take_frame(text),
            _ => {
                if line.starts_with(b"end ") {
                    self.sums = FrameSums::none();
                }
                write_full(&mut self.inner, line)
            }
        }
    }
}

impl<W: Counted> Counted for Thinned<W> {
    ghost count = { λ w. W.count w.inner };

    fn count(&self) -> u64 {
        self.inner.count()
    }
}

impl<W: CountedWrite> CountedWrite for Thinned<W> {
    ghost contents = { λ w. None };

    /// Takes a line. Each call has a whole line.
    fn write(&mut self, buf: &[u8]) -> Result<usize, WriteFault> {
        if self.every == 0 {
            return self.inner.write(buf);
        }
        self.take(buf)?;
        Ok(buf.len())
    }
}
