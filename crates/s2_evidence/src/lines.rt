//! The front of a verdict's line, and the lines of the checker's results. They take no memory.
ghost use Rattle.std.specs.Prelude.{◌≡◌, ◌≤◌, length};
ghost use Rattle.s2_evidence.specs.Lines.{cost_text, sole_line, answer_text, answer_line, examined_line};

use s2_check::{Answer, Examined, Refusal, Verdict};
use s2_io::Line;

/// A verdict on bits, and their cost.
pub fn with_cost(verdict: Verdict, cost: i64) -> Line
    ensures text { result ≡ cost_text verdict cost }
    ensures short { length result ≤ 57 }
{
    let mut line = Line::new();
    line.push(verdict.word());
    line.push_number(" cost ", cost);
    line
}

/// The line of bits that are more likely than any other codeword.
pub fn sole_line(cost: i64) -> Line
    ensures { result ≡ sole_line cost }
{
    let mut line = with_cost(Verdict::Sole, cost);
    line.push("\n");
    line
}

/// The checker's result, without LF.
fn answer_text(cost: i64, answer: Answer) -> Line
    ensures text { result ≡ answer_text cost answer }
    ensures short { length result ≤ 49 }
{
    let mut line = Line::new();
    match answer {
        Answer::Yes => line.push_number("yes cost ", cost),
        Answer::No(Refusal::OtherShape) => line.push("no shape"),
        Answer::No(Refusal::OddCheck { check }) => line.push_number("no check ", check),
        Answer::No(Refusal::BoundBelow) => line.push("no bound"),
    }
    line
}

/// The line of the checker's result, with the cost of the certificate's bits.
pub(crate) fn answer_line(cost: i64, answer: Answer) -> Line
    ensures { result ≡ answer_line cost answer }
{
    let mut line = answer_text(cost, answer);
    line.push("\n");
    line
}

/// The line of a certificate, with the cost of its bits: `sole` if it is strict, else the checker's result.
pub(crate) fn examined_line(cost: i64, found: Examined) -> Line
    ensures { result ≡ examined_line cost found }
{
    if found.strict {
        sole_line(cost)
    } else {
        answer_line(cost, found.answer)
    }
}
