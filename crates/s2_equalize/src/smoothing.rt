//! The gains of a frame's blocks, smoothed.
ghost use Rattle.std.specs.Prelude.{◌≡◌, ◌+◌, ◌*◌, ◌-◌, ◌≤◌, ◌<◌, length};
ghost use Rattle.s2_equalize.specs.Bounds.{AreTurns, AreWithin, gain_bound, mean_bound, smoothed_bound, turned_bound, turns_bound};
ghost use Rattle.s2_equalize.specs.Complex.{IsWithin, sum_from};
ghost use Rattle.s2_equalize.specs.Complex as by;
ghost use Rattle.s2_equalize.specs.Gains.{mean_gain, smoothed, turned, weight, weights};
ghost use Rattle.s2_equalize.specs.Gains as gains_by;

use crate::carrier::{turn, turned_once, turns};
use crate::complex::{Complex, ORIGIN, over, plus, scaled, times, times_conjugate};

/// The weight of a block.
#[inline(always)]
fn weight(block: usize) -> u64
    ensures is { result ≡ weight block }
    ensures least { 1 ≤ result }
    ensures most { result ≤ 2 }
{
    if block == 0 { 2 } else { 1 }
}

/// The gain of block `l`, rotated to block `k`.
#[inline(always)]
fn turned(gains: &[Complex], turns: &[Complex; 5], k: usize, l: usize) -> Complex
    requires inside { l < length gains.now }
    requires after { k ≤ l + 4 }
    requires before { l ≤ k + 4 }
    requires gains { AreWithin gain_bound gains.now }
    requires turns { AreWithin turns_bound turns.now }
    ensures is { (turn : Complex) → AreTurns turn turns.now → result ≡ turned gains.now turn k l }
    ensures most { IsWithin turned_bound result }
{
    if l <= k {
        times(gains[l], turns[k - l])
    } else {
        times_conjugate(gains[l], turns[l - k])
    }
}

/// A sum of weighted gains, and the sum of their weights.
#[derive(Clone, Copy)]
struct NearSum {
    weight: u64,
    sum: Complex,
}

/// The gains from `at` on, below `end`, rotated to block `k`, weighted and summed.
fn weighted(gains: &[Complex], turns: &[Complex; 5], k: usize, at: usize, end: usize) -> NearSum
    requires order { at ≤ end }
    requires inside { end ≤ length gains.now }
    requires after { k ≤ at + 4 }
    requires before { end ≤ k + 5 }
    requires gains { AreWithin gain_bound gains.now }
    requires turns { AreWithin turns_bound turns.now }
    ensures weight { result.weight ≡ weights at (end - at) }
    ensures sum { (turn : Complex) → AreTurns turn turns.now → result.sum ≡ sum_from (λ l. by.scaled (weight l) (turned gains.now turn k l)) at (end - at) }
    ensures most { IsWithin (turned_bound * result.weight) result.sum }
    ensures least { end - at ≤ result.weight }
    ensures few { result.weight ≤ 18 }
{
    let mut all = NearSum {
        weight: 0,
        sum: ORIGIN,
    };
    for l in at..end {
        let weight = weight(l);
        let gain = turned(gains, turns, k, l);
        all.weight += weight;
        all.sum = plus(all.sum, scaled(weight, gain));
    }
    all
}

/// The smoothed gain of block `k`.
fn mean_gain(gains: &[Complex], turns: &[Complex; 5], k: usize) -> Complex
    requires inside { k < length gains.now }
    requires few { length gains.now ≤ 23 }
    requires gains { AreWithin gain_bound gains.now }
    requires turns { AreWithin turns_bound turns.now }
    ensures is { (turn : Complex) → AreTurns turn turns.now → result ≡ mean_gain gains.now turn k }
    ensures most { IsWithin mean_bound result }
{
    let at = k.saturating_sub(4);
    let end = (k + 5).min(gains.len());
    let near = weighted(gains, turns, k, at, end);
    over(32768 * near.weight, near.sum)
}

/// Writes the smoothed gains of all blocks, and of one after the last. Returns the rotation from block to block.
pub(crate) fn smooth_into(gains: &[Complex], smoothed: &mut [Complex]) -> Complex
    requires some { 0 < length gains.now }
    requires few { length gains.now ≤ 23 }
    requires room { length smoothed.old ≡ length gains.now + 1 }
    requires gains { AreWithin gain_bound gains.now }
    ensures is { smoothed.new ≡ gains_by.smoothed gains.now }
    ensures turn { result ≡ gains_by.turn gains.now }
    ensures most { AreWithin smoothed_bound smoothed.new }
{
    let turn = turn(gains);
    let turns = turns(turn);
    for k in 0..gains.len() {
        smoothed[k] = mean_gain(gains, &turns, k);
    }
    smoothed[gains.len()] = turned_once(smoothed[gains.len() - 1], turn);
    turn
}
