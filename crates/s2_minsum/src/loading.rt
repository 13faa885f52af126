//! Soft values as the first posteriors.
ghost use Rattle.std.specs.Prelude.{◌≡◌, ℕ, ◌+◌, ◌*◌, ◌<◌, ◌≤◌, length, slice_index, get_or, pos, EachIndex};
ghost use Rattle.s2_mode.specs.Limits.{max_bits, max_group};
ghost use Rattle.s2_mode.specs.Shape.{code_bits};
ghost use Rattle.s2_bits.specs.Lanes16.{signed16};
ghost use Rattle.s2_minsum.specs.Rows.{cell};
ghost use Rattle.s2_minsum.specs.Layout.{bit_of};

use crate::layout::{first_bit, step_of};
use s2_matrix::Matrix;

/// Writes consecutive soft values, from a place on.
fn put_near(row: &mut [u16], soft: &[i16], first: usize)
    requires few { length soft.now ≤ max_bits }
    requires within { (c : ℕ) → c < length row.old → first + c < length soft.now }
    ensures { EachIndex row.new (λ c. signed16 (slice_index row.new c) ≡ get_or soft.now (first + c) (pos 0)) }
{
    for lane in 0..row.len() {
        row[lane] = soft[first + lane].cast_unsigned();
    }
}

/// Writes soft values `step` places apart, one by one.
fn put_apart(row: &mut [u16], soft: &[i16], first: usize, step: usize)
    requires few { length soft.now ≤ max_bits }
    requires lanes { length row.old ≤ max_group }
    requires step { step ≤ max_bits }
    requires within { (c : ℕ) → c < length row.old → first + c * step < length soft.now }
    ensures { EachIndex row.new (λ c. signed16 (slice_index row.new c) ≡ get_or soft.now (first + c * step) (pos 0)) }
{
    for lane in 0..row.len() {
        row[lane] = soft[first + lane * step].cast_unsigned();
    }
}

/// Writes soft values `step` places apart.
fn put_row(row: &mut [u16], soft: &[i16], first: usize, step: usize)
    requires few { length soft.now ≤ max_bits }
    requires lanes { length row.old ≤ max_group }
    requires step { step ≤ max_bits }
    requires within { (c : ℕ) → c < length row.old → first + c * step < length soft.now }
    ensures { EachIndex row.new (λ c. signed16 (slice_index row.new c) ≡ get_or soft.now (first + c * step) (pos 0)) }
{
    if step == 1 {
        put_near(row, soft, first);
    } else {
        put_apart(row, soft, first, step);
    }
}

/// Writes soft values as posteriors.
pub(crate) fn init_posteriors(matrix: &Matrix, soft: &[i16], posteriors: &mut [u16])
    requires long { length soft.now ≡ code_bits matrix.now.shape }
    requires same { length posteriors.old ≡ code_bits matrix.now.shape }
    ensures fits { (k : ℕ) → slice_index posteriors.new k < 65536 }
    ensures are { (row lane : ℕ) → row < matrix.now.shape.groups + matrix.now.shape.q → lane < matrix.now.shape.group → signed16 (cell posteriors.new matrix.now.shape.group row lane) ≡ get_or soft.now (bit_of matrix.now.shape row lane) (pos 0) }
{
    let shape = matrix.shape();
    let n = shape.group();
    for row in 0..shape.groups() + shape.q() {
        let at = row * n;
        put_row(
            &mut posteriors[at..at + n],
            soft,
            first_bit(shape, row),
            step_of(shape, row),
        );
    }
}
