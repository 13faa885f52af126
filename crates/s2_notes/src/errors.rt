//! Standard error, beside the progress line.
ghost use Rattle.std.specs.Prelude.{◌≡◌};

use s2_io::{Clearing, Disk, StandardStreams, Terminal};
use s2_mode::{Counting, write_full};

/// Standard error. The progress line is cleared before anything is written to it.
pub type Errors<'t, 'r, R> = Clearing<'t, 'r, Counting<<R as StandardStreams>::Errors>, R>;

/// Standard error.
pub fn errors_of<'t, 'r, R: Disk>(terminal: &'t Terminal<'r, R>) -> Errors<'t, 'r, R>
    ensures { result.inner.failed ≡ 0 }
{
    Clearing::new(Counting::new(terminal.host().errors()), terminal)
}

/// Writes a note. If it cannot be written, it is lost.
pub(crate) fn write_note<R: Disk>(terminal: &Terminal<'_, R>, note: &[u8]) {
    let _ = write_full(&mut errors_of(terminal), note);
}
