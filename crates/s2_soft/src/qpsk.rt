//! Soft values of QPSK, eight components at a time. Lanes hold words of 16 bits in two's complement.
ghost use Rattle.std.specs.Prelude.{◌≡◌, ℕ, ◌+◌, ◌*◌, ◌/◌, ◌<◌, ◌≤◌, length};
ghost use Rattle.s2_bits.specs.Lanes.{HasLanes, lane};
ghost use Rattle.s2_bits.specs.Lanes16.{signed16};
ghost use Rattle.s2_soft.specs.Divisors.{IsDivisor, factor_of};
ghost use Rattle.s2_soft.specs.Soft.{quantized, value_at};
ghost use Rattle.s2_soft.specs.Closed.{component_difference};
ghost use Rattle.s2_soft.specs.Lanes.{component_at};

use s2_bits::lanes16::{all, least, magnitude, minus, sign, where_same};
use s2_mode::{MAX_SOFT, Symbol, words_from};
use std::simd::prelude::*;

/// The upper halves of products with a factor.
#[inline(always)]
fn upper_products(sizes: u16x8, factor: u16) -> u16x8
    ensures { HasLanes 8 (λ k. lane sizes k * factor / 65536) result }
{
    let factors = u16x8::splat(factor).cast::<u32>();
    (sizes.cast::<u32>() * factors / u32x8::splat(65536)).cast::<u16>()
}

/// The components of four symbols.
#[inline(always)]
pub(crate) fn components(payload: &[Symbol], at: usize) -> u16x8
    requires { at + 4 ≤ length payload.now }
    ensures { (k : ℕ) → k < 8 → signed16 (lane result k) ≡ component_at payload.now (2 * at + k) }
{
    words_from(payload, at)
}

/// The soft values of components of QPSK, by the factor of a divisor.
#[inline(always)]
pub(crate) fn component_values(components: u16x8, factor: u16) -> u16x8
    ensures { (d : ℕ) → IsDivisor d → factor ≡ factor_of d → (k : ℕ) → k < 8 → signed16 (lane result k) ≡ quantized d (component_difference (signed16 (lane components k))) }
{
    let sizes = least(upper_products(magnitude(components), factor), all(MAX_SOFT));
    where_same(sign(components), all(1), minus(all(0), sizes), sizes)
}

/// Writes eight soft values at a place and the next ones.
#[inline(always)]
pub(crate) fn store(values: u16x8, soft: &mut [i16], at: usize)
    requires { at + 8 ≤ length soft.old }
    ensures here { (k : ℕ) → k < 8 → value_at soft.new (at + k) ≡ signed16 (lane values k) }
    ensures before { (b : ℕ) → b < at → value_at soft.new b ≡ value_at soft.old b }
{
    let [a, b, c, d, e, f, g, h] = values.to_array();
    let signed = i16x8::from_array([
        a.cast_signed(),
        b.cast_signed(),
        c.cast_signed(),
        d.cast_signed(),
        e.cast_signed(),
        f.cast_signed(),
        g.cast_signed(),
        h.cast_signed(),
    ]);
    signed.copy_to_slice(&mut soft[at..]);
}
