//! Soft values of 8PSK, four symbols at a time. Lanes hold words of 32 bits in two's complement.
ghost use Rattle.std.specs.Prelude.{◌≡◌, ℕ, ◌+◌, ◌*◌, ◌/◌, ◌%◌, ◌^◌, ◌<◌, ◌≤◌, length};
ghost use Rattle.s2_bits.specs.Lanes.{HasLanes, lane};
ghost use Rattle.s2_bits.specs.Lanes16.{signed16};
ghost use Rattle.s2_mode.specs.Symbols.{symbol_at};
ghost use Rattle.s2_soft.specs.Divisors.{IsDivisor};
ghost use Rattle.s2_soft.specs.Soft.{quantized, value_at};
ghost use Rattle.s2_soft.specs.Closed.{first_difference, second_difference, third_difference};
ghost use Rattle.s2_soft.specs.Lanes.{AreComponents, number, times32, magnitude32};

use crate::values::{BETWEEN, LONGER, ON_AXIS};
use s2_bits::lanes32::{all, least, minus, most, plus, where_same};
use s2_mode::{MAX_SOFT, Symbol};
use std::simd::prelude::*;

/// More than any inner product: raised by this, each is positive.
const RAISED: u32 = 1 << 27;

#[inline(always)]
fn times(a: u32x4, b: u32x4) -> u32x4
    ensures { HasLanes 4 (λ k. times32 (lane a k) (lane b k)) result }
{
    a * b
}

/// Words divided by a number.
#[inline(always)]
fn quotient(a: u32x4, by: u32) -> u32x4
    requires { 0 < by }
    ensures { HasLanes 4 (λ k. lane a k / by) result }
{
    a / u32x4::splat(by)
}

/// Words divided by a power of two.
#[inline(always)]
fn shifted(a: u32x4, shift: u32) -> u32x4
    requires { shift < 32 }
    ensures { HasLanes 4 (λ k. lane a k / 2 ^ shift) result }
{
    a >> u32x4::splat(shift)
}

/// The lower halves of words.
#[inline(always)]
fn lower(a: u32x4) -> u32x4
    ensures { HasLanes 4 (λ k. lane a k % 65536) result }
{
    a % u32x4::splat(65536)
}

/// The magnitudes of words.
#[inline(always)]
fn magnitude(v: u32x4) -> u32x4
    ensures { HasLanes 4 (λ k. magnitude32 (lane v k)) result }
{
    least(v, minus(all(0), v))
}

/// The components of a symbol in one word, I in its lower half.
#[inline(always)]
fn pair(symbol: Symbol) -> u32
    ensures i { signed16 (result % 65536) ≡ symbol.i }
    ensures q { signed16 (result / 65536 % 65536) ≡ symbol.q }
{
    u32::from(symbol.q.cast_unsigned()) * 65536 + u32::from(symbol.i.cast_unsigned())
}

/// The components of four symbols, a word for each.
#[inline(always)]
pub(crate) fn pairs(payload: &[Symbol], at: usize) -> u32x4
    requires { at + 4 ≤ length payload.now }
    ensures i { (k : ℕ) → k < 4 → signed16 (lane result k % 65536) ≡ (symbol_at payload.now (at + k)).i }
    ensures q { (k : ℕ) → k < 4 → signed16 (lane result k / 65536 % 65536) ≡ (symbol_at payload.now (at + k)).q }
{
    u32x4::from_array([
        pair(payload[at]),
        pair(payload[at + 1]),
        pair(payload[at + 2]),
        pair(payload[at + 3]),
    ])
}

/// The signed numbers in the lower halves.
#[inline(always)]
pub(crate) fn numbers(v: u32x4) -> u32x4
    ensures is { (k : ℕ) → k < 4 → number (lane result k) ≡ signed16 (lane v k % 65536) }
    ensures small { AreComponents result }
{
    minus(lower(plus(v, all(32768))), all(32768))
}

/// The signed numbers in the upper halves.
#[inline(always)]
pub(crate) fn upper_numbers(v: u32x4) -> u32x4
    ensures is { (k : ℕ) → k < 4 → number (lane result k) ≡ signed16 (lane v k / 65536 % 65536) }
    ensures small { AreComponents result }
{
    numbers(quotient(v, 65536))
}

/// The differences of squared distances for the first bit; positive if a point with 0 there is nearer.
#[inline(always)]
pub(crate) fn first_differences(i: u32x4, q: u32x4) -> u32x4
    requires i { AreComponents i }
    requires q { AreComponents q }
    ensures { (k : ℕ) → k < 4 → number (lane result k) ≡ first_difference (number (lane i k)) (number (lane q k)) }
{
    let p = times(i, all(BETWEEN as u32));
    let r = times(q, all(BETWEEN as u32));
    let longer = all(LONGER as u32);
    let zero = most(
        plus(magnitude(plus(p, r)), longer),
        magnitude(times(i, all(ON_AXIS as u32))),
    );
    let one = most(
        plus(magnitude(minus(p, r)), longer),
        magnitude(times(q, all(ON_AXIS as u32))),
    );
    minus(zero, one)
}

/// The differences of squared distances for the second bit; positive if a point with 0 there is nearer.
#[inline(always)]
pub(crate) fn second_differences(i: u32x4, q: u32x4) -> u32x4
    requires i { AreComponents i }
    requires q { AreComponents q }
    ensures { (k : ℕ) → k < 4 → number (lane result k) ≡ second_difference (number (lane i k)) (number (lane q k)) }
{
    let p = times(i, all(BETWEEN as u32));
    let x = times(i, all(ON_AXIS as u32));
    let y = times(q, all(ON_AXIS as u32));
    let raised = all(RAISED);
    let height = plus(
        magnitude(times(q, all(BETWEEN as u32))),
        all(RAISED + LONGER as u32),
    );
    let zero = most(plus(p, height), most(plus(x, raised), plus(y, raised)));
    let one = most(minus(height, p), most(minus(raised, x), minus(raised, y)));
    minus(zero, one)
}

/// The differences of squared distances for the third bit; positive if a point with 0 there is nearer.
#[inline(always)]
pub(crate) fn third_differences(i: u32x4, q: u32x4) -> u32x4
    requires i { AreComponents i }
    requires q { AreComponents q }
    ensures { (k : ℕ) → k < 4 → number (lane result k) ≡ third_difference (number (lane i k)) (number (lane q k)) }
{
    let r = times(q, all(BETWEEN as u32));
    let x = times(i, all(ON_AXIS as u32));
    let y = times(q, all(ON_AXIS as u32));
    let raised = all(RAISED);
    let width = plus(
        magnitude(times(i, all(BETWEEN as u32))),
        all(RAISED + LONGER as u32),
    );
    let zero = most(plus(r, width), most(minus(raised, x), plus(y, raised)));
    let one = most(minus(width, r), most(plus(x, raised), minus(raised, y)));
    minus(zero, one)
}

/// Differences of squared distances as soft values; the divisor is 2 to the power `shift`.
#[inline(always)]
pub(crate) fn quantized(differences: u32x4, shift: u32) -> u16x4
    requires { shift < 32 }
    ensures { (d : ℕ) → IsDivisor d → d ≡ 2 ^ shift → (k : ℕ) → k < 4 → signed16 (lane result k) ≡ quantized d (number (lane differences k)) }
{
    let sizes = least(shifted(magnitude(differences), shift), all(MAX_SOFT as u32));
    let negative = quotient(differences, 1 << 31);
    let words = where_same(negative, all(1), minus(all(65536), sizes), sizes);
    lower(words).cast::<u16>()
}

/// Writes four soft values at a place and the next ones.
#[inline(always)]
pub(crate) fn store(values: u16x4, soft: &mut [i16], at: usize)
    requires { at + 4 ≤ length soft.old }
    ensures here { (k : ℕ) → k < 4 → value_at soft.new (at + k) ≡ signed16 (lane values k) }
    ensures before { (b : ℕ) → b < at → value_at soft.new b ≡ value_at soft.old b }
{
    let [a, b, c, d] = values.to_array();
    let signed = i16x4::from_array([
        a.cast_signed(),
        b.cast_signed(),
        c.cast_signed(),
        d.cast_signed(),
    ]);
    signed.copy_to_slice(&mut soft[at..]);
}
