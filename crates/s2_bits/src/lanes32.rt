//! Words of 32 bits, four at a time.
ghost use Rattle.std.specs.Prelude.{min, max, ◌+◌, ◌≤◌, ◌==◌, if◌then◌else◌, length, slice_index};
ghost use Rattle.s2_bits.specs.Lanes.{HasLanes, lane};
ghost use Rattle.s2_bits.specs.Lanes32.{minus32, plus32};

use std::simd::prelude::*;

/// The same word in all lanes.
#[inline(always)]
pub fn all(x: u32) -> u32x4
    ensures { HasLanes 4 (λ k. x) result }
{
    u32x4::splat(x)
}

/// The four words from `at` on.
#[inline(always)]
pub fn load(s: &[u32], at: usize) -> u32x4
    requires { at + 4 ≤ length s.now }
    ensures { HasLanes 4 (λ k. slice_index s.now (at + k)) result }
{
    u32x4::from_slice(&s[at..])
}

/// The lesser of two words, as unsigned numbers.
#[inline(always)]
pub fn least(a: u32x4, b: u32x4) -> u32x4
    ensures { HasLanes 4 (λ k. min (lane a k) (lane b k)) result }
{
    a.simd_min(b)
}

/// The greater of two words, as unsigned numbers.
#[inline(always)]
pub fn most(a: u32x4, b: u32x4) -> u32x4
    ensures { HasLanes 4 (λ k. max (lane a k) (lane b k)) result }
{
    a.simd_max(b)
}

/// Differences of words, modulo 2^32.
#[inline(always)]
pub fn minus(a: u32x4, b: u32x4) -> u32x4
    ensures { HasLanes 4 (λ k. minus32 (lane a k) (lane b k)) result }
{
    a - b
}

/// Sums of words, modulo 2^32.
#[inline(always)]
pub fn plus(a: u32x4, b: u32x4) -> u32x4
    ensures { HasLanes 4 (λ k. plus32 (lane a k) (lane b k)) result }
{
    a + b
}

/// x if a equals b, else y, lane by lane.
#[inline(always)]
pub fn where_same(a: u32x4, b: u32x4, x: u32x4, y: u32x4) -> u32x4
    ensures { HasLanes 4 (λ k. if lane a k == lane b k then lane x k else lane y k) result }
{
    a.simd_eq(b).select(x, y)
}
