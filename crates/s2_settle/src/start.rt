//! The rests before any move.
ghost use Rattle.std.specs.Prelude.{◌≡◌, ℕ, ◌≤◌, ◌<◌, ◌+◌, ◌*◌, All, length, slice_index, EachIndex};
ghost use Rattle.s2_mode.specs.Limits.{max_bits, max_group};
ghost use Rattle.s2_mode.specs.Shape.{code_bits};
ghost use Rattle.s2_check.specs.Views.{IsSoft};
ghost use Rattle.s2_settle.specs.Start.{started, start};

use crate::limits::{SETTLING_SCALE, ZERO_REST};
use s2_matrix::Matrix;
use s2_minsum::{first_bit, step_of};

/// The scaled soft value of a place, in favour of the word.
fn started(soft: &[i16], word: &[bool], i: usize) -> u16
    requires range { All IsSoft soft.now }
    requires soft { i < length soft.now }
    requires word { i < length word.now }
    ensures { result ≡ started soft.now word.now i }
{
    let value = soft[i];
    let size = SETTLING_SCALE * value.unsigned_abs();
    let differs = if value < 0 { !word[i] } else { word[i] };
    if differs {
        ZERO_REST - size
    } else {
        ZERO_REST + size
    }
}

/// Writes the rests of bits `step` places apart.
fn put_row(row: &mut [u16], soft: &[i16], word: &[bool], first: usize, step: usize)
    requires range { All IsSoft soft.now }
    requires few { length soft.now ≤ max_bits }
    requires word { length word.now ≡ length soft.now }
    requires lanes { length row.old ≤ max_group }
    requires step { step ≤ max_bits }
    requires within { (c : ℕ) → c < length row.old → first + c * step < length soft.now }
    ensures { EachIndex row.new (λ c. slice_index row.new c ≡ started soft.now word.now (first + c * step)) }
{
    for lane in 0..row.len() {
        row[lane] = started(soft, word, first + lane * step);
    }
}

/// Writes the rests before any move.
pub(crate) fn put_rests(matrix: &Matrix, soft: &[i16], word: &[bool], rests: &mut [u16])
    requires range { All IsSoft soft.now }
    requires long { length soft.now ≡ code_bits matrix.now.shape }
    requires word { length word.now ≡ code_bits matrix.now.shape }
    requires same { length rests.old ≡ code_bits matrix.now.shape }
    ensures { rests.new ≡ (start matrix.now soft.now word.now).rests }
{
    let shape = matrix.shape();
    let n = shape.group();
    for row in 0..shape.groups() + shape.q() {
        let at = row * n;
        put_row(
            &mut rests[at..at + n],
            soft,
            word,
            first_bit(shape, row),
            step_of(shape, row),
        );
    }
}
