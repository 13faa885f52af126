//! The lines of verdicts. They take no memory.
ghost use Rattle.std.specs.Prelude.{◌≡◌, ◌≤◌, length};
ghost use Rattle.s2_evidence.specs.Lines.{cost_text};
ghost use Rattle.s2_judging.specs.Lines.{broken_text, ended_line};

use s2_check::Verdict;
use s2_evidence::with_cost;
use s2_io::Line;

/// A line, with the number of changed bits if it is known, and LF.
fn ended(line: Line, changed: Option<usize>) -> Line
    requires { length line ≤ 150 }
    ensures { result ≡ ended_line line changed }
{
    let mut line = line;
    if let Some(changed) = changed {
        line.push_number(" changed ", changed);
    }
    line.push("\n");
    line
}

/// The line of a codeword with this verdict.
pub(crate) fn codeword_line(verdict: Verdict, cost: i64, changed: Option<usize>) -> Line
    ensures { result ≡ ended_line (cost_text verdict cost) changed }
{
    ended(with_cost(verdict, cost), changed)
}

/// The words of bits that are not a codeword, with their first odd check.
fn broken_text(cost: i64, check: usize) -> Line
    ensures text { result ≡ broken_text cost check }
    ensures short { length result ≤ 104 }
{
    let mut line = with_cost(Verdict::Broken, cost);
    line.push_number(" check ", check);
    line
}

/// The line of bits that are not a codeword, with their first odd check.
pub(crate) fn broken_line(cost: i64, check: usize, changed: Option<usize>) -> Line
    ensures { result ≡ ended_line (broken_text cost check) changed }
{
    ended(broken_text(cost, check), changed)
}
