//! The scrambling number of a recording.
ghost use Rattle.std.specs.Prelude.{◌≡◌, ◌+◌, ◌*◌, ◌/◌, ◌<◌, ◌≤◌, length, IfOk};
ghost use Rattle.s2_scan.specs.Inside.{AreWithin};
ghost use Rattle.s2_scan.specs.Pilots as by;

use crate::candidate::Candidate;
use crate::distances::picked;
use crate::lines::has_pilots;
use crate::passes::Pass;
use crate::pilots::pilot_sums;
use crate::sums::Sum;
use crate::trial::best_of;
use s2_scramble::tables::{x_table, y_table};
use std::alloc::{AllocError, Global};

/// The most frames whose pilots are used.
const FRAMES: usize = 16;

/// The symbols of a frame up to the end of its second pilot block.
const PILOTED: u64 = 3042;

/// The pilots of a candidate's first frames, each added up.
fn pilots_of(
    alloc: Global,
    bytes: &[u8],
    passes: &[Pass],
    candidate: &Candidate,
) -> Result<Vec<Sum>, AllocError>
    ensures are { IfOk result (λ v. v.items ≡ by.pilot_sums candidate.now.form bytes.now (by.frames_of candidate.now passes.now)) }
    ensures within { IfOk result (λ v. AreWithin v.items) }
{
    let frames = picked(alloc, passes, candidate.form, candidate.header)?;
    let count = frames.len().min(FRAMES);
    pilot_sums(alloc, candidate.form, bytes, &frames[..count])
}

/// The scrambling number that rotates pilots back best.
fn best_number(alloc: Global, pilots: &[Sum]) -> Result<u64, AllocError>
    requires { AreWithin pilots.now }
    ensures { IfOk result (by.IsBest pilots.now by.numbers) }
{
    let x_bits = x_table(alloc)?;
    let y_bits = y_table(alloc)?;
    Ok(best_of(pilots, &x_bits, &y_bits) as u64)
}

/// The scrambling number by the pilots of a candidate, if those of its first frame are kept.
fn number_by(
    alloc: Global,
    bytes: &[u8],
    passes: &[Pass],
    candidate: &Candidate,
) -> Result<Option<u64>, AllocError>
    ensures { IfOk result (by.IsNumberBy bytes.now passes.now candidate.now) }
{
    if bytes.len() as u64 / 4 < candidate.first.saturating_add(PILOTED) {
        return Ok(None);
    }
    let pilots = pilots_of(alloc, bytes, passes, candidate)?;
    Ok(Some(best_number(alloc, &pilots)?))
}

/// Whether frames have pilots; dummy frames have none.
fn is_piloted(header: usize) -> bool
    ensures { result ≡ by.is_piloted header }
{
    header >= 4 && has_pilots(header)
}

/// The scrambling number by the likeliest frames with pilots.
pub(crate) fn number_of(
    alloc: Global,
    bytes: &[u8],
    passes: &[Pass],
    candidates: &[Candidate],
) -> Result<Option<u64>, AllocError>
    ensures { IfOk result (by.IsNumber bytes.now passes.now candidates.now) }
{
    for k in 0..candidates.len() {
        if is_piloted(candidates[k].header) {
            return number_by(alloc, bytes, passes, &candidates[k]);
        }
    }
    Ok(None)
}
