//! All headers that are seen.
ghost use Rattle.std.specs.Prelude.{◌≡◌, ◌<◌, ◌++◌, IfOk, OnOk};
ghost use Rattle.s2_scan.specs.Candidates.{candidates_in, candidates_as, all_candidates};

use crate::candidate::{Candidate, push_candidate};
use crate::codes::HEADERS;
use crate::distances::picked;
use crate::forms::FORMS;
use crate::passes::Pass;
use std::alloc::{AllocError, Global};

/// Appends the candidate of a header in a form to others, if there is one.
#[tactic(auto, unfolding(crate::specs::Candidates::candidates_in))]
fn push_header(
    alloc: Global,
    passes: &[Pass],
    form: usize,
    header: usize,
    candidates: &mut Vec<Candidate>,
) -> Result<(), AllocError>
    ensures { OnOk result (candidates.new.items ≡ candidates.old.items ++ candidates_in passes.now form header) }
{
    let picked = picked(alloc, passes, form, header)?;
    push_candidate(alloc, form, header, &picked, candidates)
}

/// Appends the candidates of all headers in a form to others.
fn push_form(
    alloc: Global,
    passes: &[Pass],
    form: usize,
    candidates: &mut Vec<Candidate>,
) -> Result<(), AllocError>
    ensures { OnOk result (candidates.new.items ≡ candidates.old.items ++ candidates_as passes.now form) }
{
    for header in 0..HEADERS {
        push_header(alloc, passes, form, header, candidates)?;
    }
    Ok(())
}

/// All candidates.
pub(crate) fn all_candidates(alloc: Global, passes: &[Pass]) -> Result<Vec<Candidate>, AllocError>
    ensures { IfOk result (λ v. v.items ≡ all_candidates passes.now) }
{
    let mut candidates = Vec::new(alloc);
    for form in 0..FORMS {
        push_form(alloc, passes, form, &mut candidates)?;
    }
    Ok(candidates)
}
