//! The pilots of frames.
ghost use Rattle.std.specs.Prelude.{◌≡◌, ◌+◌, ◌≤◌, ◌<◌, length, IfOk};
ghost use Rattle.s2_scan.specs.Inside.{AreWithin, IsWithin};
ghost use Rattle.s2_scan.specs.Pilots as by;

use crate::forms::symbol_in;
use crate::lines::is_conjugate;
use crate::passes::Pass;
use crate::sums::{NO_SUM, Sum, conjugated_if, plus};
use s2_mode::HEADER_SYMBOLS;
use std::alloc::{AllocError, Global};

/// The pilots of a frame that are used: those of its first two blocks.
pub(crate) const PILOTS: usize = 72;

/// Which symbol after the header pilot `k` is.
#[inline(always)]
pub(crate) fn pilot_place(k: usize) -> usize
    requires { k < 72 }
    ensures is { result ≡ by.pilot_place k }
    ensures most { result < 3042 }
{
    1440 + 1476 * (k / 36) + k % 36
}

/// The symbol of a recording in a form that is so many after a position. Past the end there is nothing.
fn symbol_at(form: usize, bytes: &[u8], position: u64, place: usize) -> Sum
    ensures is { result ≡ by.symbol_at form bytes.now (position + place) }
    ensures within { IsWithin 32768 result }
{
    let at = position.saturating_add(place as u64);
    if at < bytes.len() as u64 / 4 {
        conjugated_if(is_conjugate(form), symbol_in(form >= 8, bytes, at as usize))
    } else {
        NO_SUM
    }
}

/// Pilot `k` of frames, added up.
#[tactic(auto, unfolding(crate::specs::Pilots::pilot_sum))]
fn pilot_sum(form: usize, bytes: &[u8], frames: &[Pass], k: usize) -> Sum
    requires few { length frames.now ≤ 16 }
    requires k { k < 72 }
    ensures is { result ≡ by.pilot_sum form bytes.now frames.now k }
    ensures within { IsWithin 524288 result }
{
    let place = HEADER_SYMBOLS + pilot_place(k);
    let mut sum = NO_SUM;
    for j in 0..frames.len() {
        sum = plus(sum, symbol_at(form, bytes, frames[j].position, place));
    }
    sum
}

/// All pilots of frames, each added up.
#[tactic(auto, unfolding(crate::specs::Pilots::pilot_sums))]
pub(crate) fn pilot_sums(
    alloc: Global,
    form: usize,
    bytes: &[u8],
    frames: &[Pass],
) -> Result<Vec<Sum>, AllocError>
    requires { length frames.now ≤ 16 }
    ensures are { IfOk result (λ v. v.items ≡ by.pilot_sums form bytes.now frames.now) }
    ensures within { IfOk result (λ v. AreWithin v.items) }
{
    let mut sums = Vec::new(alloc);
    for k in 0..PILOTS {
        sums.push(pilot_sum(form, bytes, frames, k))?;
    }
    Ok(sums)
}
