//! Eight bits in the lanes of a vector.
ghost use Rattle.std.specs.Prelude.{◌≡◌, ◌+◌, ◌≤◌, length};
ghost use Rattle.s2_bits.specs.Bits.{bit_at};
ghost use Rattle.s2_bits.specs.Lanes.{eight};

use std::simd::prelude::*;

/// The eight bits from a place on, a number in each lane.
#[inline(always)]
pub fn eight_from(bits: &[bool], at: usize) -> u8x8
    requires { at + 8 ≤ length bits.now }
    ensures { result ≡ eight (λ k. bit_at bits.now (at + k)) }
{
    u8x8::from_array([
        u8::from(bits[at]),
        u8::from(bits[at + 1]),
        u8::from(bits[at + 2]),
        u8::from(bits[at + 3]),
        u8::from(bits[at + 4]),
        u8::from(bits[at + 5]),
        u8::from(bits[at + 6]),
        u8::from(bits[at + 7]),
    ])
}
