//! Eight symbols of 8PSK at a time, their components by table. Lanes hold words of 16 bits in two's complement.
ghost use Rattle.std.specs.Prelude.{◌≡◌, ℕ, ◌+◌, ◌<◌, ◌≤◌, length};
ghost use Rattle.s2_mode.specs.Symbols.{symbol_at};
ghost use Rattle.s2_bits.specs.Bits.{bit_at};
ghost use Rattle.s2_map.specs.Lanes.{psk_label, psk_point, eight, eight_words};

use crate::constants::{AXIS, DIAGONAL};
use s2_bits::eight_from;
use s2_mode::{Symbol, put_four, symbols_from};
use std::simd::prelude::*;

/// The words of the negative components.
const MINUS_DIAGONAL: u16 = u16::MAX - DIAGONAL as u16 + 1;

const MINUS_AXIS: u16 = u16::MAX - AXIS as u16 + 1;

/// The components of the points by label.
const I: [u16; 8] = [
    DIAGONAL as u16,
    AXIS as u16,
    MINUS_AXIS,
    MINUS_DIAGONAL,
    0,
    DIAGONAL as u16,
    MINUS_DIAGONAL,
    0,
];

const Q: [u16; 8] = [
    DIAGONAL as u16,
    0,
    0,
    MINUS_DIAGONAL,
    AXIS as u16,
    MINUS_DIAGONAL,
    DIAGONAL as u16,
    MINUS_AXIS,
];

/// The labels of eight rows of three columns from a place on.
#[inline(always)]
fn labels(first: &[bool], second: &[bool], third: &[bool], at: usize) -> u16x8
    requires first { at + 8 ≤ length first.now }
    requires second { at + 8 ≤ length second.now }
    requires third { at + 8 ≤ length third.now }
    ensures { result ≡ eight (λ k. psk_label (bit_at first.now (at + k)) (bit_at second.now (at + k)) (bit_at third.now (at + k))) }
{
    let first = eight_from(first, at);
    let halves = first + first + eight_from(second, at);
    (halves + halves + eight_from(third, at)).cast::<u16>()
}

/// The words of the points of eight rows from a place on, I before Q.
#[inline(always)]
fn words(first: &[bool], second: &[bool], third: &[bool], at: usize) -> u16x16
    requires first { at + 8 ≤ length first.now }
    requires second { at + 8 ≤ length second.now }
    requires third { at + 8 ≤ length third.now }
    ensures { result ≡ eight_words (λ k. psk_point (bit_at first.now (at + k)) (bit_at second.now (at + k)) (bit_at third.now (at + k))) }
{
    let labels = labels(first, second, third, at);
    let i = u16x8::from_array(I).swizzle_dyn(labels);
    let q = u16x8::from_array(Q).swizzle_dyn(labels);
    i.shuffle(q, [0, 8, 1, 9, 2, 10, 3, 11, 4, 12, 5, 13, 6, 14, 7, 15])
}

/// Writes the points of eight rows from a place on; those before it are already written.
#[inline(always)]
pub(crate) fn map_eight(
    first: &[bool],
    second: &[bool],
    third: &[bool],
    payload: &mut [Symbol],
    at: usize,
)
    requires first { at + 8 ≤ length first.now }
    requires second { at + 8 ≤ length second.now }
    requires third { at + 8 ≤ length third.now }
    requires room { at + 8 ≤ length payload.old }
    ensures { ((k : ℕ) → k < at → symbol_at payload.old k ≡ psk_point (bit_at first.now k) (bit_at second.now k) (bit_at third.now k)) → (k : ℕ) → k < at + 8 → symbol_at payload.new k ≡ psk_point (bit_at first.now k) (bit_at second.now k) (bit_at third.now k) }
{
    let words = words(first, second, third, at);
    put_four(payload, at, symbols_from(words.extract::<0, 8>()));
    put_four(payload, at + 4, symbols_from(words.extract::<8, 8>()));
}
