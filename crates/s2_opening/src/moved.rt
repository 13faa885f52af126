//! The report on a piece of a recording: its positions are those in the recording. This is plain code.
ghost use Rattle.std.specs.Prelude.{◌≡◌, None};
ghost use Rattle.s2_mode.specs.Counts.{CanCount, CountsFault};

use s2_io::Line;
use s2_mode::{Counted, CountedWrite, WriteFault, write_full};

/// A writer of a report that adds a number to the position in each line of a frame or of a cut frame. If it is 0, it passes on
/// everything.
///
/// In contracts, it has the failed calls of the inner writer; its bytes are not known.
#[derive(Drop)]
pub struct Moved<W> {
    inner: W,
    by: u64,
}

/// A line with a position: the text before it, the position, and the text after it.
#[derive(Clone, Copy)]
struct Placed<'t> {
    before: &'t str,
    at: u64,
    after: &'t str,
}

/// The parts of the line of a frame or of a cut frame.
fn parts_of(line: &str) -> Option<Placed<'_>> {
    let (before, rest) = line.split_once(" at ")?;
    if !before.starts_with("frame ") && before != "cut" {
        return None;
    }
    let (digits, _) = rest.split_once(' ')?;
    let after = rest.strip_prefix(digits)?;
    Some(Placed {
        before,
        at: digits.parse::<u64>().ok()?,
        after,
    })
}

impl<W> Moved<W> {
    /// This number is added to each position.
    pub fn new(inner: W, by: u64) -> Moved<W>
        ensures { result.inner ≡ inner }
    {
        Moved { inner, by }
    }
}

impl<W: CountedWrite> Moved<W> {
    /// Writes a line with its position moved.
    fn write_placed(&mut self, line: Placed<'_>) -> Result<(), WriteFault>
        requires { CanCount (W.count self.old.inner) }
        ensures { CountsFault (W.count self.old.inner) (W.count self.new.inner) result }
    {
        let mut place = Line::new();
        place.push_number(" at ", line.at.saturating_add(self.by));
        write_full(&mut self.inner, line.before.as_bytes())?;
        write_full(&mut self.inner, place.as_bytes())?;
        write_full(&mut self.inner, line.after.as_bytes())
    }

    /// Writes a line, with its position moved if it has one.
    fn take(&mut self, line: &[u8]) -> Result<(), WriteFault>
        requires { CanCount (W.count self.old.inner) }
        ensures { CountsFault (W.count self.old.inner) (W.count self.new.inner) result }
    {
        match parts_of(str::from_utf8(line).unwrap_or("")) {
            Some(parts) => self.write_placed(parts),
            None => write_full(&mut self.inner, line),
        }
    }
}

impl<W: Counted> Counted for Moved<W> {
    ghost count = { λ w. W.count w.inner };

    fn count(&self) -> u64 {
        self.inner.count()
    }
}

impl<W: CountedWrite> CountedWrite for Moved<W> {
    ghost contents = { λ w. None };

    /// Takes a line. Each call has a whole line.
    fn write(&mut self, buf: &[u8]) -> Result<usize, WriteFault> {
        if self.by == 0 {
            return self.inner.write(buf);
        }
        self.take(buf)?;
        Ok(buf.len())
    }
}
