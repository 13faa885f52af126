//! The factors of a frame: one divided by each gain.
ghost use Rattle.std.specs.Prelude.{◌≡◌, ◌+◌, ◌*◌, ◌^◌, ◌≤◌, ◌<◌, length, map};
ghost use Rattle.s2_equalize.specs.Bounds.{AreWithin, factor_bound, smoothed_bound};
ghost use Rattle.s2_equalize.specs.Complex.{IsWithin, complex_at, energy};
ghost use Rattle.s2_equalize.specs.Equalizer.{digits, divisor, factor_at, factors_of, fineness, reciprocal};

use crate::complex::{Complex, conjugate, energy, over, plus, scaled};
use crate::constants::STRETCHES;

/// The number of binary digits of the larger part of a number.
#[tactic(auto, unfolding(crate::specs::Equalizer::digits))]
fn digits(a: Complex) -> u32
    requires { IsWithin smoothed_bound a }
    ensures is { result ≡ digits a }
    ensures most { result ≤ 23 }
{
    64 - a.re.unsigned_abs().max(a.im.unsigned_abs()).leading_zeros()
}

/// The energy by which a gain is inverted.
#[tactic(auto, unfolding(crate::specs::Equalizer::divisor))]
fn divisor(fineness: u32, gain: Complex) -> u64
    requires fineness { fineness ≤ 23 }
    requires gain { IsWithin smoothed_bound gain }
    ensures is { result ≡ divisor fineness gain }
    ensures some { 1 ≤ result }
    ensures most { result ≤ 2 ^ 46 }
{
    let quarter = (1u64 << (2 * fineness)) / 16;
    quarter.max(energy(gain)).max(1)
}

/// One divided by a gain.
fn reciprocal(fineness: u32, gain: Complex) -> Complex
    requires fineness { fineness ≤ 23 }
    requires gain { IsWithin smoothed_bound gain }
    ensures is { result ≡ reciprocal fineness gain }
    ensures most { IsWithin factor_bound result }
{
    over(
        divisor(fineness, gain),
        scaled(1u64 << (fineness + 12), conjugate(gain)),
    )
}

/// How fine factors are: the number of digits of the header's gain.
pub(crate) fn fineness(gains: &[Complex]) -> u32
    requires some { 0 < length gains.now }
    requires most { AreWithin smoothed_bound gains.now }
    ensures is { result ≡ fineness gains.now }
    ensures most { result ≤ 23 }
{
    digits(gains[0])
}

/// Replaces each smoothed gain by its factor.
pub(crate) fn invert_each(fineness: u32, gains: &mut [Complex])
    requires fineness { fineness ≤ 23 }
    requires most { AreWithin smoothed_bound gains.old }
    ensures is { gains.new ≡ map (reciprocal fineness) gains.old }
    ensures most { AreWithin factor_bound gains.new }
{
    for k in 0..gains.len() {
        gains[k] = reciprocal(fineness, gains[k]);
    }
}

/// The factor for a stretch of a frame.
#[inline(always)]
pub(crate) fn factor_at(factors: &[Complex], stretch: usize) -> Complex
    requires some { 2 ≤ length factors.now }
    requires few { stretch < 1000 }
    requires most { AreWithin factor_bound factors.now }
    ensures is { result ≡ factor_at factors.now stretch }
    ensures most { IsWithin factor_bound result }
{
    let k = ((stretch + 1) / STRETCHES).min(factors.len() - 2);
    let j = ((stretch + 1) % STRETCHES) as u64;
    let near = scaled(41 - j, factors[k]);
    over(41, plus(near, scaled(j, factors[k + 1])))
}
