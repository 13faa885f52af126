//! The steps of a receiver, as C has them.
ghost use Rattle.std.specs.Prelude.{◌≡◌};
ghost use Rattle.s2_library.specs.Fields as fields;

use s2_bbframe::HeaderFault;
use s2_check::Verdict;
use s2_report::{Outcome, Report, Step};

/// The size of [`StepFields`] in bytes.
pub(crate) const SIZE: u32 = 80;

/// A step of a receiver.
#[repr(C)]
#[derive(Clone, Copy)]
pub struct StepFields {
    pub size: u32,
    pub kind: u32,
    pub verdict: u32,
    pub outcome: u32,
    pub fixed: u32,
    pub has_figures: u32,
    pub turn: u32,
    pub reserved0: u32,
    pub number: u64,
    pub at: u64,
    pub symbols: u64,
    pub reserved: [u32; 6],
}

/// The number of a verdict.
pub(crate) fn verdict_number(verdict: Verdict) -> u32
    ensures { result ≡ fields.verdict_number verdict }
{
    match verdict {
        Verdict::Broken => 0,
        Verdict::Parity => 1,
        Verdict::MostLikely => 2,
        Verdict::Sole => 3,
    }
}

/// The number of an outcome.
fn outcome_number(outcome: Outcome) -> u32
    ensures { result ≡ fields.outcome_number outcome }
{
    match outcome {
        Outcome::Delivered { fixed: _ } => 0,
        Outcome::NoWord => 1,
        Outcome::BadHeader(HeaderFault::BadCrc) => 2,
        Outcome::BadHeader(HeaderFault::OtherStream) => 3,
        Outcome::BadHeader(HeaderFault::BadLengths) => 4,
    }
}

/// The bits that the outer code changed, 0 if the frame was not delivered.
fn fixed_in(outcome: Outcome) -> u32
    ensures { result ≡ fields.fixed_in outcome }
{
    match outcome {
        Outcome::Delivered { fixed } => fixed,
        Outcome::NoWord | Outcome::BadHeader(_) => 0,
    }
}

/// A step of this kind, at this symbol.
fn step_of_kind(kind: u32, at: u64, symbols: u64) -> StepFields
    ensures { result ≡ fields.step_of_kind kind at symbols }
{
    StepFields {
        size: SIZE,
        kind,
        verdict: 0,
        outcome: 0,
        fixed: 0,
        has_figures: 0,
        turn: 0,
        reserved0: 0,
        number: 0,
        at,
        symbols,
        reserved: [0; 6],
    }
}

/// The step of a frame.
fn frame_fields(report: Report) -> StepFields
    ensures { result ≡ fields.frame_fields report }
{
    StepFields {
        size: SIZE,
        kind: 1,
        verdict: verdict_number(report.verdict),
        outcome: outcome_number(report.outcome),
        fixed: fixed_in(report.outcome),
        has_figures: u32::from(report.figures.is_some()),
        turn: u32::from(report.turn),
        reserved0: 0,
        number: report.number,
        at: report.at,
        symbols: 0,
        reserved: [0; 6],
    }
}

/// A step, or that there is none yet.
pub(crate) fn step_fields(step: Option<Step>) -> StepFields
    ensures { result ≡ fields.step_fields step }
{
    match step {
        None => step_of_kind(0, 0, 0),
        Some(Step::Frame(report)) => frame_fields(report),
        Some(Step::Cut { at, symbols }) => step_of_kind(2, at, symbols),
        Some(Step::End) => step_of_kind(3, 0, 0),
    }
}
