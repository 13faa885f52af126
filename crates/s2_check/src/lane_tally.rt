//! The tally of the shares of a wide check, four at a time. Lanes hold words of 32 bits in two's complement.
ghost use Rattle.std.specs.Prelude.{◌≡◌, ℕ, ◌+◌, ◌*◌, ◌/◌, ◌%◌, ◌^◌, ◌<◌, ◌≤◌, min, length, get_or, pos, ◌-ℤ◌, FitsSigned};
ghost use Rattle.std.specs.Int.{cast_unsigned, w32};
ghost use Rattle.s2_mode.specs.Limits.{max_bits};
ghost use Rattle.s2_bits.specs.Lanes.{HasLanes, lane};
ghost use Rattle.s2_bits.specs.Lanes32.{minus32, plus32};
ghost use Rattle.s2_check.specs.Tallies.{IsTally};

use crate::tally::Tally;
use s2_bits::lanes32::{all, least, minus, plus};
use std::simd::prelude::*;

/// The number added to words, so that none represents a negative number.
const RAISED: u32 = 1 << 31;

/// The words of four shares.
#[inline(always)]
fn words_from(shares: &[i32], at: usize) -> u32x4
    requires { at + 4 ≤ length shares.now }
    ensures words { HasLanes 4 (λ k. cast_unsigned w32 (get_or shares.now (at + k) (pos 0))) result }
    ensures fit { (k : ℕ) → k < 4 → FitsSigned w32 (get_or shares.now (at + k) (pos 0)) }
{
    u32x4::from_array([
        shares[at].cast_unsigned(),
        shares[at + 1].cast_unsigned(),
        shares[at + 2].cast_unsigned(),
        shares[at + 3].cast_unsigned(),
    ])
}

/// The negative ones of four shares, with zero for the others; [`RAISED`] is added to each.
#[inline(always)]
fn negatives(words: u32x4) -> u32x4
    ensures { HasLanes 4 (λ k. min (plus32 (lane words k) 2147483648) 2147483648) result }
{
    least(plus(words, all(RAISED)), all(RAISED))
}

/// The magnitudes of four shares.
#[inline(always)]
fn magnitudes_of(words: u32x4) -> u32x4
    ensures { HasLanes 4 (λ k. min (lane words k) (minus32 0 (lane words k))) result }
{
    least(words, minus(all(0), words))
}

/// One if a share is negative, else zero.
#[inline(always)]
fn signs(words: u32x4) -> u32x4
    ensures { HasLanes 4 (λ k. lane words k / 2147483648) result }
{
    words / u32x4::splat(RAISED)
}

/// Sums of 64 bits, with one more word added to each.
#[inline(always)]
fn sums_with(sums: u64x4, words: u32x4) -> u64x4
    ensures { HasLanes 4 (λ k. (lane sums k + lane words k) % 2 ^ 64) result }
{
    sums + words.cast::<u64>()
}

/// The tally of four lanes, which together have this number of shares.
fn joined(sums: u64x4, counts: u32x4, magnitudes: u32x4, taken: usize) -> Tally
    requires sums_long { length sums ≡ 4 }
    requires counts_long { length counts ≡ 4 }
    requires magnitudes_long { length magnitudes ≡ 4 }
    requires few { taken ≤ max_bits }
    requires small { (k : ℕ) → lane sums k ≤ 2147483648 * max_bits }
    ensures sum { result.negative_sum ≡ pos (lane sums 0 + lane sums 1 + lane sums 2 + lane sums 3) -ℤ pos (2147483648 * taken) }
    ensures count { result.negative_count ≡ lane counts 0 + lane counts 1 + lane counts 2 + lane counts 3 }
    ensures magnitude { result.least_magnitude ≡ min (min (lane magnitudes 0) (lane magnitudes 1)) (min (lane magnitudes 2) (lane magnitudes 3)) }
{
    let [a, b, c, d] = sums.to_array();
    let [e, f, g, h] = counts.to_array();
    let [p, q, r, s] = magnitudes.to_array();
    Tally {
        negative_sum: (a + b + c + d) as i64 - i64::from(RAISED) * taken as i64,
        negative_count: e as usize + f as usize + g as usize + h as usize,
        least_magnitude: p.min(q).min(r.min(s)),
    }
}

/// The tally of the whole vectors of shares.
#[inline(always)]
pub(crate) fn tally_of_vectors(shares: &[i32]) -> Tally
    requires { length shares.now ≤ max_bits }
    ensures { IsTally result.negative_sum result.negative_count result.least_magnitude (4 * (length shares.now / 4)) shares.now }
{
    let mut sums = u64x4::splat(0);
    let mut counts = all(0);
    let mut magnitudes = all(u32::MAX);
    for block in 0..shares.len() / 4 {
        let words = words_from(shares, 4 * block);
        sums = sums_with(sums, negatives(words));
        counts = plus(counts, signs(words));
        magnitudes = least(magnitudes, magnitudes_of(words));
    }
    joined(sums, counts, magnitudes, 4 * (shares.len() / 4))
}
