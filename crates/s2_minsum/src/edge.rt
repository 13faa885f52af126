//! The place of the message of a check to a member.
ghost use Rattle.std.specs.Prelude.{◌≡◌, ◌<◌, ◌+◌, ◌*◌, ◌/◌, ◌%◌, length, get_or};
ghost use Rattle.s2_matrix.specs.Code.{code_of, members};
ghost use Rattle.s2_minsum.specs.Layout.{place_at, first_row};
ghost use Rattle.s2_minsum.specs.Decoding.{AreFit};

use crate::layers::Layers;
use crate::layout::{back_to, place_among};
use s2_matrix::Matrix;

/// The place of the message of a check to its member at a place.
pub(crate) fn message_place(matrix: &Matrix, layers: &Layers<'_>, check: usize, at: usize) -> usize
    requires layers { layers.now ≡ matrix.now }
    requires fit { AreFit matrix.now }
    requires check { check < (code_of matrix.now).checks }
    requires at { at < length (members (code_of matrix.now) check) }
    ensures is { result ≡ (first_row matrix.now (check % matrix.now.shape.q) + place_at matrix.now check (get_or (members (code_of matrix.now) check) at 0)) * matrix.now.shape.group + check / matrix.now.shape.q }
    ensures within { result < first_row matrix.now matrix.now.shape.q * matrix.now.shape.group }
{
    let shape = matrix.shape();
    let r = check % shape.q();
    let lane = check / shape.q();
    let start = layers.start(r);
    let last = matrix.members_at(r + (shape.group() - 1) * shape.q());
    let place = place_among(last, back_to(shape, lane, matrix.members(check, at)) as u32);
    (start + place) * shape.group() + lane
}
