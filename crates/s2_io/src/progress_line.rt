//! The text of the line that shows how far a command is.
ghost use Rattle.std.specs.Prelude.{◌≡◌, ◌+◌, ◌≤◌, ◌++◌, length, decimal};
ghost use Rattle.s2_io.specs.Lines.{line_room};

use crate::line::Line;
use crate::numbers::Numbers;

/// The maximum length of a line in characters.
pub(crate) const WIDEST: usize = 191;

/// Appends a number between words to a line.
fn push_between(line: &mut Line, before: &str, number: u64, after: &str)
    requires { length line.old + (length before.now + 40) + length after.now ≤ line_room }
    ensures bytes { line.new ≡ line.old ++ (before.now ++ decimal number ++ after.now) }
    ensures room { length line.new ≤ length line.old + (length before.now + 20) + length after.now }
{
    line.push_number(before, number);
    line.push(after);
}

/// The same if there is a number.
fn push_part(line: &mut Line, before: &str, number: Option<u64>, after: &str)
    requires { length line.old + (length before.now + 40) + length after.now ≤ line_room }
    ensures room { length line.new ≤ length line.old + (length before.now + 20) + length after.now }
{
    if let Some(number) = number {
        push_between(line, before, number, after);
    }
}

/// Appends megabytes to a line, from their number of tenths.
fn push_megabytes(line: &mut Line, tenths: u64)
    requires { length line.old + 84 ≤ line_room }
    ensures room { length line.new ≤ length line.old + 44 }
{
    push_between(line, "", tenths / 10, ".");
    push_between(line, "", tenths % 10, " MB");
}

/// Appends to a line the frames, packets and bytes that have passed.
fn push_counts(line: &mut Line, numbers: Numbers)
    requires { length line.old ≤ 1 }
    ensures room { length line.new ≤ length line.old + 107 }
{
    line.push("s2: ");
    push_part(line, "", numbers.frames, " frames, ");
    push_part(line, "", numbers.packets, " packets, ");
    push_megabytes(line, numbers.tenths);
}

/// Appends to a line the pace, the share that is done, and the time left.
fn push_pace(line: &mut Line, numbers: Numbers)
    requires { length line.old ≤ 108 }
    ensures room { length line.new ≤ length line.old + 84 }
{
    push_part(line, ", ", numbers.rate, " symbols/s");
    push_part(line, ", ", numbers.share, "%");
    push_part(line, ", ", numbers.left, " s left");
}

/// Appends the words of these numbers to a line.
fn push_numbers(line: &mut Line, numbers: Numbers)
    requires { length line.old ≤ 1 }
    ensures room { length line.new ≤ length line.old + 191 }
{
    push_counts(line, numbers);
    push_pace(line, numbers);
}

/// The words of these numbers: `s2: 7 frames, 120 packets, 1.9 MB, 500000 symbols/s, 41%, 12 s left`.
pub fn line_of(numbers: Numbers) -> Line {
    let mut line = Line::new();
    push_numbers(&mut line, numbers);
    line
}

/// The maximum number of characters shown, for a terminal of 80 columns.
const COLUMNS: usize = 79;

/// Whether the words of these numbers fit on a line of a terminal.
fn fits(numbers: Numbers) -> bool {
    line_of(numbers).as_bytes().len() <= COLUMNS
}

/// The numbers that are shown: without frames if the line is too long, and also without packets if it is still too
/// long.
fn fitted(numbers: Numbers) -> Numbers {
    let few = Numbers {
        frames: None,
        ..numbers
    };
    if fits(numbers) {
        numbers
    } else if fits(few) {
        few
    } else {
        Numbers {
            packets: None,
            ..few
        }
    }
}

/// Appends `count` blanks to a line.
fn push_blanks(line: &mut Line, count: usize)
    requires { length line.old + count ≤ line_room }
    ensures { length line.new ≡ length line.old + count }
{
    'blanks: for _ in 0..count {
        line.push(" ");
    }
}

/// The words that are shown of these numbers. They overwrite the line before, which has `width` characters.
pub(crate) fn shown(numbers: Numbers, width: usize) -> Line
    requires { width ≤ 191 }
{
    let mut line = Line::new();
    line.push("\r");
    push_numbers(&mut line, fitted(numbers));
    let columns = line.as_bytes().len();
    push_blanks(&mut line, (width + 1).saturating_sub(columns));
    line
}

/// Blanks that overwrite the line before, which has `width` characters.
pub(crate) fn wiped(width: usize) -> Line
    requires { width ≤ 191 }
{
    let mut line = Line::new();
    line.push("\r");
    push_blanks(&mut line, width);
    line.push("\r");
    line
}
