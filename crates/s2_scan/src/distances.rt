//! The passes of a header in a form, and their distances.
ghost use Rattle.std.specs.Prelude.{◌≡◌, ◌≤◌, [], ◌∷◌, ◌++◌, length, IfOk, OnOk};
ghost use Rattle.std.specs.List.{filter};
ghost use Rattle.s2_scan.specs.Candidates.{is_of, distances, occurrences};

use crate::passes::Pass;
use std::alloc::{AllocError, Global};

/// Whether a pass is of a header in a form.
fn is_of(form: usize, header: usize, pass: &Pass) -> bool
    ensures { result ≡ is_of form header pass.now }
{
    pass.form == form && pass.header == header
}

/// Appends a pass to others, if it is of a header in a form.
fn pick(form: usize, header: usize, pass: &Pass, picked: &mut Vec<Pass>) -> Result<(), AllocError>
    ensures { OnOk result (picked.new.items ≡ picked.old.items ++ filter (is_of form header) (pass.now ∷ [])) }
{
    if is_of(form, header, pass) {
        picked.push(*pass)?;
    }
    Ok(())
}

/// The passes of a header in a form.
pub(crate) fn picked(
    alloc: Global,
    passes: &[Pass],
    form: usize,
    header: usize,
) -> Result<Vec<Pass>, AllocError>
    ensures { IfOk result (λ v. v.items ≡ filter (is_of form header) passes.now) }
{
    let mut picked = Vec::new(alloc);
    for k in 0..passes.len() {
        pick(form, header, &passes[k], &mut picked)?;
    }
    Ok(picked)
}

/// The distances of passes, each to the next one.
pub(crate) fn distances(alloc: Global, passes: &[Pass]) -> Result<Vec<u64>, AllocError>
    ensures { IfOk result (λ v. v.items ≡ distances passes.now) }
{
    let mut distances = Vec::new(alloc);
    for k in 1..passes.len() {
        let distance = passes[k].position.saturating_sub(passes[k - 1].position);
        distances.push(distance)?;
    }
    Ok(distances)
}

/// How often a distance occurs.
pub(crate) fn occurrences(distance: u64, distances: &[u64]) -> usize
    ensures is { result ≡ occurrences distance distances.now }
    ensures most { result ≤ length distances.now }
{
    let mut count = 0;
    for k in 0..distances.len() {
        if distances[k] == distance {
            count += 1;
        }
    }
    count
}
