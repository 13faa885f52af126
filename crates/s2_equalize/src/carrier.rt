//! The rotation of the carrier from block to block.
ghost use Rattle.std.specs.Prelude.{◌≡◌, ℕ, ◌*◌, ◌^◌, ◌≤◌, ◌<◌, length};
ghost use Rattle.s2_equalize.specs.Bounds.{AreTurns, AreWithin, gain_bound, turn_sum_bound, turns_bound};
ghost use Rattle.s2_equalize.specs.Complex.{IsWithin, root};
ghost use Rattle.s2_equalize.specs.Complex as by_complex;
ghost use Rattle.s2_equalize.specs.Gains.{turn_of, turn_sum};
ghost use Rattle.s2_equalize.specs.Gains as by;

use crate::complex::{Complex, ORIGIN, energy, over, plus, scaled, times, times_conjugate};

/// The rotation by nothing.
pub(crate) const NO_TURN: Complex = Complex { re: 32768, im: 0 };

/// The gains, each times the conjugate of the one before it, summed.
fn turn_sum(gains: &[Complex]) -> Complex
    requires some { 0 < length gains.now }
    requires few { length gains.now ≤ 23 }
    requires most { AreWithin gain_bound gains.now }
    ensures is { result ≡ turn_sum gains.now }
    ensures most { IsWithin turn_sum_bound result }
{
    let mut sum = ORIGIN;
    for k in 0..gains.len() - 1 {
        sum = plus(sum, times_conjugate(gains[k + 1], gains[k]));
    }
    over(128, sum)
}

/// The whole part of the square root.
fn root(n: u64) -> u64
    ensures is { result ≡ root n }
    ensures most { result < 2 ^ 32 }
{
    n.isqrt()
}

/// A number divided by its size.
fn turn_of(a: Complex) -> Complex
    requires { IsWithin turn_sum_bound a }
    ensures is { result ≡ turn_of a }
    ensures most { IsWithin 32768 result }
{
    let size = root(energy(a));
    if size == 0 {
        NO_TURN
    } else {
        over(size, scaled(32768, a))
    }
}

/// The rotation of the carrier from block to block.
pub(crate) fn turn(gains: &[Complex]) -> Complex
    requires some { 0 < length gains.now }
    requires few { length gains.now ≤ 23 }
    requires most { AreWithin gain_bound gains.now }
    ensures is { result ≡ by.turn gains.now }
    ensures most { IsWithin 32768 result }
{
    turn_of(turn_sum(gains))
}

/// One rotation more.
#[inline(always)]
pub(crate) fn turned_once(a: Complex, turn: Complex) -> Complex
    requires a { IsWithin (2 ^ 22) a }
    requires turn { IsWithin 32768 turn }
    ensures is { result ≡ by_complex.over 32768 (by_complex.times a turn) }
    ensures most { (m : ℕ) → IsWithin m a → IsWithin (2 * m) result }
{
    over(32768, times(a, turn))
}

/// The rotations over 0 to 4 blocks.
pub(crate) fn turns(turn: Complex) -> [Complex; 5]
    requires { IsWithin 32768 turn }
    ensures are { AreTurns turn result }
    ensures most { AreWithin turns_bound result }
{
    let one = turned_once(NO_TURN, turn);
    let two = turned_once(one, turn);
    let three = turned_once(two, turn);
    let four = turned_once(three, turn);
    [NO_TURN, one, two, three, four]
}
