//! All that is printed.
ghost use Rattle.std.specs.Prelude.{◌≡◌, ◌++◌, IfOk, OnOk};
ghost use Rattle.s2_scan.specs.Lines as lines;

use crate::advice::push_advice;
use crate::candidate::Candidate;
use crate::lines::push_line;
use crate::strength::push_nothing;
use crate::texts::{push, push_number};
use s2_io::Exit;
use std::alloc::{AllocError, Global};

/// The lines of candidates.
fn push_lines(text: &mut Vec<u8>, candidates: &[Candidate]) -> Result<(), AllocError>
    ensures { OnOk result (text.new.items ≡ text.old.items ++ lines.lines_of candidates.now) }
{
    for k in 0..candidates.len() {
        push_line(text, &candidates[k])?;
    }
    Ok(())
}

/// The line of the scrambling number.
#[tactic(auto, unfolding(crate::specs::Lines::number_line))]
fn push_number_line(text: &mut Vec<u8>, number: Option<u64>) -> Result<(), AllocError>
    ensures { OnOk result (text.new.items ≡ text.old.items ++ lines.number_line number) }
{
    let Some(number) = number else {
        return push(text, "number not looked for: no pilots\n");
    };
    push_number(text, "number ", number)?;
    push(text, "\n")
}

/// All that is printed of candidates in the file of this name and these first bytes, under a scrambling number.
pub(crate) fn scan_text(
    alloc: Global,
    name: &str,
    front: &[u8],
    number: Option<u64>,
    candidates: &[Candidate],
) -> Result<Vec<u8>, AllocError>
    ensures { IfOk result (λ text. text.items ≡ lines.scan_text name.now front.now number candidates.now) }
{
    let mut text = Vec::new(alloc);
    if candidates.is_empty() {
        push_nothing(&mut text, front)?;
        return Ok(text);
    }
    push_lines(&mut text, candidates)?;
    push_number_line(&mut text, number)?;
    push_advice(&mut text, name, number, candidates)?;
    Ok(text)
}

/// The exit for candidates.
pub(crate) fn scan_exit(candidates: &[Candidate]) -> Exit
    ensures { result ≡ lines.scan_exit candidates.now }
{
    if candidates.is_empty() {
        Exit::No
    } else {
        Exit::Fine
    }
}
