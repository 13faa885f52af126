//! The places of a decoder's numbers: bits in rows of a group, one bit a lane.
ghost use Rattle.std.specs.Prelude.{◌≡◌, ℕ, ◌+◌, ◌*◌, ◌<◌, ◌≤◌, ◌==◌};
ghost use Rattle.std.specs.List.{position_or_len};
ghost use Rattle.s2_mode.specs.Limits.{max_bits};
ghost use Rattle.s2_mode.specs.Shape.{code_bits};
ghost use Rattle.s2_minsum.specs.Layout.{entry_of, row_of_bit, lane_of_bit, bit_of, step_of_row, lacked_row, back};

use crate::kernels::Circulant;
use s2_mode::Shape;

/// The place of a bit: its row, and its lane there.
#[derive(Clone, Copy, Drop)]
struct Spot {
    row: usize,
    lane: usize,
}

/// The place of a bit.
fn spot_of(shape: Shape, bit: usize) -> Spot
    requires { bit < code_bits shape }
    ensures row { result.row ≡ row_of_bit shape bit }
    ensures lane { result.lane ≡ lane_of_bit shape bit }
    ensures row_low { result.row < shape.groups + shape.q }
    ensures lane_low { result.lane < shape.group }
{
    let group = shape.group();
    let k = shape.k();
    if bit < k {
        Spot {
            row: bit / group,
            lane: bit % group,
        }
    } else {
        Spot {
            row: shape.groups() + (bit - k) % shape.q(),
            lane: (bit - k) / shape.q(),
        }
    }
}

/// The row and the rotation that show a member of a layer's last check to all checks of the layer.
pub(crate) fn entry_of(shape: Shape, bit: usize) -> Circulant
    requires { bit < code_bits shape }
    ensures { result ≡ entry_of shape bit }
{
    let spot = spot_of(shape, bit);
    Circulant {
        row: spot.row as u32,
        shift: (shape.group() - 1 - spot.lane) as u32,
    }
}

/// The place of a bit's posterior.
pub(crate) fn place_of(shape: Shape, bit: usize) -> usize
    requires { bit < code_bits shape }
    ensures { result ≡ row_of_bit shape bit * shape.group + lane_of_bit shape bit }
{
    let spot = spot_of(shape, bit);
    spot.row * shape.group() + spot.lane
}

/// The bit in lane 0 of a row.
pub fn first_bit(shape: Shape, row: usize) -> usize
    requires { row < shape.groups + shape.q }
    ensures { result ≡ bit_of shape row 0 }
{
    if row < shape.groups() {
        row * shape.group()
    } else {
        shape.k() + (row - shape.groups())
    }
}

/// The distance of the bits of a row.
pub fn step_of(shape: Shape, row: usize) -> usize
    ensures is { result ≡ step_of_row shape row }
    ensures few { result ≤ max_bits }
{
    if row < shape.groups() { 1 } else { shape.q() }
}

/// The row in which the first check of a layer has no bit: the last row for layer 0, none for any other.
pub fn last_row(shape: Shape, r: usize) -> usize
    ensures { result ≡ lacked_row shape r }
{
    if r == 0 {
        shape.groups() + shape.q() - 1
    } else {
        shape.groups() + shape.q()
    }
}

/// The member of a layer's last check that corresponds to a bit of the check in this lane.
pub(crate) fn back_to(shape: Shape, check_lane: usize, bit: usize) -> usize
    requires bit { bit < code_bits shape }
    requires lane { check_lane < shape.group }
    ensures { result ≡ back shape check_lane bit }
{
    let n = shape.group();
    let spot = spot_of(shape, bit);
    first_bit(shape, spot.row) + (spot.lane + n - 1 - check_lane) % n * step_of(shape, spot.row)
}

/// The place of a number in a list; the list's length if it is not there.
pub fn place_among(members: &[u32], bit: u32) -> usize
    ensures { result ≡ position_or_len (λ m. m == bit) members.now }
{
    for place in 0..members.len() {
        if members[place] == bit {
            return place;
        }
    }
    members.len()
}
