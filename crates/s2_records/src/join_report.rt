//! The report of a join.
ghost use Rattle.std.specs.Prelude.{◌≡◌, ◌≢◌, ◌+◌, ◌<◌, ◌≤◌, Err};
ghost use Rattle.s2_mode.specs.Counts.{CanCount};
ghost use Rattle.s2_io.specs.Exits.{Prints};
ghost use Rattle.s2_records.specs.Counting.{cut_words, exit_by, report_of, totals_of};
ghost use Rattle.s2_records.specs.Limits.{max_frames};

use crate::frames::frame_bytes;
use crate::join_counts::{Counts, Summary};
use s2_io::{Exit, Fault, Line, print};
use s2_mode::{CountedWrite, Mode};
use s2_report::{Totals, cut_bytes_line, end_line};

/// The line of an incomplete last frame, or nothing if no frame is incomplete.
fn cut_words(mode: Mode, summary: Summary) -> Line
    requires { summary.counts.frames < max_frames }
    ensures { result ≡ cut_words mode summary }
{
    if summary.cut == 0 {
        return Line::new();
    }
    cut_bytes_line(
        frame_bytes(mode) as u64 * summary.counts.frames,
        summary.cut,
    )
}

/// These counts among the totals of a report.
fn totals_of(counts: Counts) -> Totals
    ensures { result ≡ totals_of counts }
{
    Totals {
        frames: counts.frames,
        delivered: counts.delivered,
        packets: counts.packets,
        bad: counts.bad,
        ..Totals::none()
    }
}

/// The exit by the counts of a whole file.
fn exit_by(summary: Summary) -> Exit
    ensures { result ≡ exit_by summary }
{
    let Counts {
        frames,
        delivered,
        packets: _,
        bad,
    } = summary.counts;
    if delivered == frames && bad == 0 && summary.cut == 0 {
        Exit::Fine
    } else {
        Exit::No
    }
}

/// Prints the report, and returns the exit.
pub(crate) fn print_report<O: CountedWrite>(
    mode: Mode,
    summary: Summary,
    out: &mut O,
) -> Result<Exit, Fault<'static>>
    requires out { CanCount (O.count out.old) }
    requires few { summary.counts.frames < max_frames }
    ensures prints { Prints (exit_by summary) (report_of mode summary) result (O.contents out.old) (O.contents out.new) }
    ensures write { result ≡ Err Fault.Write → O.count out.new ≡ O.count out.old + 1 }
    ensures no_write { result ≢ Err Fault.Write → O.count out.new ≡ O.count out.old }
{
    let exit = exit_by(summary);
    print(out, exit, cut_words(mode, summary).as_bytes())?;
    print(out, exit, end_line(totals_of(summary.counts)).as_bytes())
}
