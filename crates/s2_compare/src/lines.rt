//! The lines of a comparison.
ghost use Rattle.std.specs.Prelude.{◌≡◌, ◌≤◌, ◌+◌, ◌++◌, length};
ghost use Rattle.std.specs.Fmt.{signed_decimal};
ghost use Rattle.s2_io.specs.Lines.{line_room};
ghost use Rattle.s2_compare.specs.Lines.{answer_text, counts_line, front_counts, changed_text, frame_line, frame_text};

use crate::compared::Compared;
use crate::counts::Counts;
use s2_io::Line;

/// Appends words and a cost.
fn push_cost(line: &mut Line, words: &str, cost: i64)
    requires { length line.old + (length words.now + 40) ≤ line_room }
    ensures text { line.new ≡ line.old ++ (words.now ++ signed_decimal cost) }
    ensures short { length line.new ≤ length line.old + (length words.now + 40) }
{
    line.push_number(words, cost);
}

/// The words of an answer, after the frame's number.
fn push_answer(line: &mut Line, answer: Compared)
    requires { length line.old ≤ 46 }
    ensures text { line.new ≡ answer_text line.old answer }
    ensures short { length line.new ≤ 300 }
{
    match answer {
        Compared::Same { verdict, cost } => {
            line.push(" same ");
            line.push(verdict.word());
            push_cost(line, " cost ", cost);
        }
        Compared::Equal { cost, changed } => {
            push_cost(line, " equal cost ", cost);
            line.push_number(" changed ", changed);
        }
        Compared::Worse {
            cost,
            best,
            changed,
        } => {
            push_cost(line, " worse cost ", cost);
            push_cost(line, " best ", best);
            line.push_number(" changed ", changed);
        }
        Compared::NoCodeword { checks, changed } => {
            line.push_number(" no-codeword checks ", checks);
            line.push_number(" changed ", changed);
        }
        Compared::Refused => line.push(" refused"),
        Compared::Missing => line.push(" missing"),
    }
}

/// The line of a frame, by its number from 1.
pub(crate) fn frame_line(number: u64, answer: Compared) -> Line
    ensures { result ≡ frame_line number answer }
{
    let mut line = Line::new();
    line.push_number("frame ", number);
    push_answer(&mut line, answer);
    line.push("\n");
    line
}

/// The first counts of the last line.
fn front_counts(counts: Counts) -> Line
    ensures text { result ≡ front_counts counts }
    ensures short { length result ≤ 200 }
{
    let mut line = Line::new();
    line.push_number("end frames ", counts.frames);
    line.push_number(" same ", counts.same);
    line.push_number(" equal ", counts.equal);
    line.push_number(" worse ", counts.worse);
    line
}

/// The last line, with the counts.
pub(crate) fn counts_line(counts: Counts) -> Line
    ensures { result ≡ counts_line counts }
{
    let mut line = front_counts(counts);
    line.push_number(" no-codeword ", counts.no_codeword);
    line.push_number(" refused ", counts.refused);
    line.push_number(" missing ", counts.missing);
    line.push("\n");
    line
}
