//! The amplitude of passes.
ghost use Rattle.std.specs.Prelude.{◌≡◌, ◌*◌, ◌^◌, ◌<◌, ◌≤◌, length, if◌then◌else◌};
ghost use Rattle.s2_mode.specs.Limits.{header_symbols};
ghost use Rattle.s2_scan.specs.Candidates.{energy_in, amplitude_of};
ghost use Rattle.s2_scan.specs.Strength.{root_of, amplitude_by};

use crate::passes::Pass;
use s2_mode::HEADER_SYMBOLS;

/// The amplitude of (-32768, -32768).
pub(crate) const MAX_AMPLITUDE: u64 = 46341;

/// The energy of passes.
fn energy_in(passes: &[Pass]) -> u128
    ensures { result ≡ energy_in passes.now }
{
    let mut energy = 0u128;
    for k in 0..passes.len() {
        energy += u128::from(passes[k].energy);
    }
    energy
}

/// One, if a number counts.
pub(crate) fn one_if(counts: bool) -> u64
    ensures is { result ≡ (if counts then 1 else 0) }
    ensures most { result ≤ 1 }
{
    if counts { 1 } else { 0 }
}

/// The rounded root of a mean, at most 46341.
pub(crate) fn rounded_root(mean: u128) -> u64
    requires { mean < 2 ^ 125 }
    ensures { result ≡ root_of mean }
{
    let mut root = 0u64;
    for k in 0..MAX_AMPLITUDE {
        root += one_if(u128::from((2 * k + 1) * (2 * k + 1)) <= 4 * mean);
    }
    root
}

/// The amplitude of the symbols of one header or more: the root of the mean of I * I + Q * Q, rounded, at most 46341. The
/// energy is the sum of I * I + Q * Q over the symbols.
pub fn amplitude_by(energy: u128, symbols: u128) -> u64
    requires { header_symbols ≤ symbols }
    ensures { result ≡ amplitude_by energy symbols }
{
    rounded_root(energy / symbols)
}

/// The amplitude over the headers that passed.
pub(crate) fn amplitude_of(passes: &[Pass]) -> u64
    requires { 0 < length passes.now }
    ensures { result ≡ amplitude_of passes.now }
{
    amplitude_by(
        energy_in(passes),
        HEADER_SYMBOLS as u128 * passes.len() as u128,
    )
}
