//! The moves that passes have found, check by check.
ghost use Rattle.std.specs.Prelude.{◌≡◌, ℕ, ◌≤◌, ◌<◌, ◌+◌, ◌*◌, length};
ghost use Rattle.s2_mode.specs.Limits.{max_bits};
ghost use Rattle.s2_mode.specs.Shape.{code_bits};
ghost use Rattle.s2_matrix.specs.Code.{code_of};
ghost use Rattle.s2_minsum.specs.Rows.{rotated};
ghost use Rattle.s2_minsum.specs.Layout.{bit_of};
ghost use Rattle.s2_settle.specs.Settled.{move_to};
ghost use Rattle.s2_settle.specs.Placing.{shown, moves_of};
ghost use Rattle.s2_check.specs.Moves.{AreMoves};

use s2_check::{MAX_MOVED, Move};
use s2_matrix::Matrix;
use s2_minsum::{Circulant, Layers, first_bit, place_among, step_of};
use s2_mode::Shape;

/// The bit that an entry shows to the check in a lane.
fn shown_by(shape: Shape, entry: Circulant, lane: usize) -> usize
    requires row { entry.row < shape.groups + shape.q }
    requires rotation { entry.shift < shape.group }
    requires lane { lane < shape.group }
    ensures is { result ≡ bit_of shape entry.row (rotated shape.group entry.shift lane) }
    ensures few { result < code_bits shape }
{
    let n = shape.group();
    let row = entry.row as usize;
    let rotated = (lane + n - entry.shift as usize) % n;
    first_bit(shape, row) + rotated * step_of(shape, row)
}

/// The bit that an entry of a layer shows to the check in a lane; 0 if there is no such entry.
pub(crate) fn target_of(
    matrix: &Matrix,
    layers: &Layers<'_>,
    r: usize,
    lane: usize,
    e: usize,
) -> usize
    requires layers { layers.now ≡ matrix.now }
    requires layer { r < matrix.now.shape.q }
    requires lane { lane < matrix.now.shape.group }
    ensures is { result ≡ shown matrix.now r lane e }
    ensures few { result ≤ max_bits }
{
    let entries = layers.entries(r);
    if e < entries.len() {
        shown_by(matrix.shape(), entries[e], lane)
    } else {
        0
    }
}

/// The move of an amount to a bit of a check; none to a bit that is no member.
fn move_to(members: &[u32], bit: u32, amount: u32) -> Move
    requires { length members.now ≤ max_bits }
    ensures { result ≡ move_to members.now bit amount }
{
    let none = Move {
        place: 0,
        amount: 0,
    };
    if amount == 0 {
        return none;
    }
    let place = place_among(members, bit);
    if place >= members.len() {
        return none;
    }
    Move {
        place: place as u16,
        amount,
    }
}

/// Writes the moves check by check.
pub(crate) fn put_moves(
    matrix: &Matrix,
    layers: &Layers<'_>,
    targets: &[u16],
    amounts: &[u16],
    moves: &mut [Move],
)
    requires layers { layers.now ≡ matrix.now }
    requires targets { length targets.now ≡ matrix.now.shape.q * matrix.now.shape.group }
    requires amounts { length amounts.now ≡ matrix.now.shape.q * matrix.now.shape.group }
    requires moves { length moves.old ≡ (code_of matrix.now).checks }
    ensures are { moves.new ≡ moves_of matrix.now targets.now amounts.now }
    ensures moves { AreMoves (code_of matrix.now) moves.new }
{
    let shape = matrix.shape();
    let n = shape.group();
    let q = shape.q();
    for check in 0..matrix.check_count() {
        let r = check % q;
        let lane = check / q;
        let e = usize::from(targets[r * n + lane]);
        let bit = target_of(matrix, layers, r, lane, e);
        let amount = u32::from(amounts[r * n + lane]).min(MAX_MOVED);
        moves[check] = move_to(matrix.members_at(check), bit as u32, amount);
    }
}
