//! The line of a step beside a line of a report.
ghost use Rattle.std.specs.Prelude.{◌≡◌, ◌↔◌, ◌++◌, ◌∷◌, [], IsTrue};
ghost use Rattle.s2_report.specs.ReportLines.{step_line};
ghost use Rattle.s2_replay.specs.Lines.{BeginsWith, claimed_words, counted_words};

use s2_check::Verdict;
use s2_io::Line;
use s2_report::{Step, Totals, line_of};

/// Whether bytes are these two parts.
fn is_joined(bytes: &[u8], front: &[u8], back: &[u8]) -> bool
    ensures { IsTrue result ↔ (bytes.now ≡ front.now ++ back.now) }
{
    match bytes.strip_prefix(front) {
        Some(rest) => rest == back,
        None => false,
    }
}

/// Whether bytes begin with these.
fn begins_with(bytes: &[u8], front: &[u8]) -> bool
    ensures { IsTrue result ↔ BeginsWith front.now bytes.now }
{
    match bytes.strip_prefix(front) {
        Some(_) => true,
        None => false,
    }
}

/// Whether a line of a report, which is given without its LF, is the line of a step with the totals after it.
pub fn is_line_of(step: Step, totals: Totals, line: &[u8]) -> bool
    ensures { IsTrue result ↔ (step_line step totals ≡ line.now ++ 10 ∷ []) }
{
    let own = line_of(step, totals);
    is_joined(own.as_bytes(), line, b"\n")
}

/// The compared part of the line of a frame with unknown bits: its number, position and verdict, and whether it is lost.
#[tactic(auto, unfolding(crate::specs::Lines::claimed_words))]
fn claimed_words(number: u64, at: u64, verdict: Verdict, lost: bool) -> Line
    ensures { result ≡ claimed_words number at verdict lost }
{
    let mut line = Line::new();
    line.push_number("frame ", number);
    line.push_number(" at ", at);
    line.push(" ");
    line.push(verdict.word());
    line.push(" ");
    line.push(if lost { "lost" } else { "fixed " });
    line
}

/// Whether a line of a report is that of a frame whose bits are not known, as far as it can be compared.
pub fn is_claimed_line(number: u64, at: u64, verdict: Verdict, lost: bool, line: &[u8]) -> bool
    ensures { IsTrue result ↔ BeginsWith (claimed_words number at verdict lost) line.now }
{
    begins_with(line, claimed_words(number, at, verdict, lost).as_bytes())
}

/// Whether a line of a report is the end line of this number of frames. No more is compared if the bits of a frame are not
/// known.
#[tactic(auto, unfolding(crate::specs::Lines::counted_words))]
fn counted_words(frames: u64) -> Line
    ensures { result ≡ counted_words frames }
{
    let mut line = Line::new();
    line.push_number("end frames ", frames);
    line.push(" ");
    line
}

/// Whether a line of a report is the end line of this number of frames, as far as it can be compared if the bits of a frame are
/// not known.
pub fn is_counted_line(frames: u64, line: &[u8]) -> bool
    ensures { IsTrue result ↔ BeginsWith (counted_words frames) line.now }
{
    begins_with(line, counted_words(frames).as_bytes())
}
