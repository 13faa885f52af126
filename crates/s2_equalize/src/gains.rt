//! The gain of a received frame at each block of known symbols.
ghost use Rattle.std.specs.Prelude.{◌≡◌, ℕ, ◌+◌, ◌-◌, ◌*◌, ◌<◌, ◌≤◌, length};
ghost use Rattle.s2_equalize.specs.Bounds.{AreSmall, AreWithin, IsSmall, correlation_bound, gain_bound};
ghost use Rattle.s2_equalize.specs.Complex.{IsWithin, sum_from};
ghost use Rattle.s2_equalize.specs.Complex as by;
ghost use Rattle.s2_equalize.specs.Gains.{correlation_at, gain_of, gains_of};

use crate::complex::{Complex, ORIGIN, number_of, over, plus, scaled, times_conjugate};
use crate::constants::{PILOT_BLOCK, PILOT_PERIOD, PILOT_SPACING};
use s2_mode::{HEADER_SYMBOLS, Symbol};

/// A received symbol times the conjugate of the symbol that was sent.
#[inline(always)]
fn correlation_of(received: Symbol, sent: Symbol) -> Complex
    requires { IsSmall sent }
    ensures is { result ≡ by.times_conjugate (by.number_of received) (by.number_of sent) }
    ensures most { IsWithin correlation_bound result }
{
    times_conjugate(number_of(received), number_of(sent))
}

/// The correlation of `n` symbols of a frame, from a place on.
fn correlation(received: &[Symbol], sent: &[Symbol], at: usize, n: usize) -> Complex
    requires received { at + n ≤ length received.now }
    requires sent { at + n ≤ length sent.now }
    requires few { n ≤ 90 }
    requires small { AreSmall sent.now }
    ensures is { result ≡ sum_from (correlation_at received.now sent.now) at n }
    ensures most { IsWithin (correlation_bound * n) result }
{
    let mut sum = ORIGIN;
    for k in 0..n {
        sum = plus(sum, correlation_of(received[at + k], sent[at + k]));
    }
    sum
}

/// The gain of `n` symbols of a frame, from a place on, in 1/1024.
fn gain(received: &[Symbol], sent: &[Symbol], at: usize, n: usize) -> Complex
    requires received { at + n ≤ length received.now }
    requires sent { at + n ≤ length sent.now }
    requires some { 0 < n }
    requires few { n ≤ 90 }
    requires small { AreSmall sent.now }
    ensures is { result ≡ gain_of received.now sent.now at n }
    ensures most { IsWithin gain_bound result }
{
    over(
        980000 * n as u64,
        scaled(1024, correlation(received, sent, at, n)),
    )
}

/// Writes the gains of the header and of the pilot blocks. Each frame has all its symbols up to the last pilot block.
pub(crate) fn find_gains(received: &[Symbol], sent: &[Symbol], gains: &mut [Complex])
    requires some { 0 < length gains.old }
    requires received { 90 + 1476 * (length gains.old - 1) ≤ length received.now }
    requires sent { length sent.now ≡ length received.now }
    requires few { length received.now ≤ 33282 }
    requires small { AreSmall sent.now }
    ensures is { gains.new ≡ gains_of received.now sent.now (length gains.old - 1) }
    ensures most { AreWithin gain_bound gains.new }
{
    gains[0] = gain(received, sent, 0, HEADER_SYMBOLS);
    for k in 1..gains.len() {
        let at = HEADER_SYMBOLS + PILOT_PERIOD * (k - 1) + PILOT_SPACING;
        gains[k] = gain(received, sent, at, PILOT_BLOCK);
    }
}
