//! Words of 16 bits in two's complement, eight at a time.
ghost use Rattle.std.specs.Prelude.{min, ◌==◌, if◌then◌else◌};
ghost use Rattle.s2_bits.specs.Lanes.{HasLanes, lane};
ghost use Rattle.s2_bits.specs.Lanes16.{magnitude16, minus16, sign16};

use std::simd::prelude::*;

/// The same word in all lanes.
#[inline(always)]
pub fn all(x: u16) -> u16x8
    ensures { HasLanes 8 (λ k. x) result }
{
    u16x8::splat(x)
}

/// The lesser of two words, as unsigned numbers.
#[inline(always)]
pub fn least(a: u16x8, b: u16x8) -> u16x8
    ensures { HasLanes 8 (λ k. min (lane a k) (lane b k)) result }
{
    a.simd_min(b)
}

/// Differences of words, modulo 2^16.
#[inline(always)]
pub fn minus(a: u16x8, b: u16x8) -> u16x8
    ensures { HasLanes 8 (λ k. minus16 (lane a k) (lane b k)) result }
{
    a - b
}

/// 1 if a word is negative, else 0.
#[inline(always)]
pub fn sign(a: u16x8) -> u16x8
    ensures { HasLanes 8 (λ k. sign16 (lane a k)) result }
{
    a / u16x8::splat(32768)
}

/// x if a equals b, else y, lane by lane.
#[inline(always)]
pub fn where_same(a: u16x8, b: u16x8, x: u16x8, y: u16x8) -> u16x8
    ensures { HasLanes 8 (λ k. if lane a k == lane b k then lane x k else lane y k) result }
{
    a.simd_eq(b).select(x, y)
}

/// The magnitudes of words.
#[inline(always)]
pub fn magnitude(v: u16x8) -> u16x8
    ensures { HasLanes 8 (λ k. magnitude16 (lane v k)) result }
{
    least(v, minus(all(0), v))
}
