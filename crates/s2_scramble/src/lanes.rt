//! Four symbols at a time, their eight components in the lanes of a vector.
ghost use Rattle.std.specs.Prelude.{◌≡◌, ℕ, ◌+◌, ◌-◌, ◌%◌, ◌<◌, ◌≤◌, length, slice_index, [], ◌∷◌};
ghost use Rattle.s2_mode.specs.declared.symbols.Symbol.{Symbol};
ghost use Rattle.s2_mode.specs.Symbols.{IsSymbol, symbol_at};
ghost use Rattle.s2_scramble.specs.Rotations.{rotated};
ghost use Rattle.s2_mode.specs.Lanes.{words_of};
ghost use Rattle.s2_scramble.specs.Lanes.{twice};

use s2_mode::{Symbol, symbols_from, words_from};
use std::simd::prelude::*;

/// Rotates four symbols. Each number of quarters is in both lanes of its symbol.
#[inline(always)]
fn rotated_words(quarters: u16x8, words: u16x8) -> u16x8
    ensures { (k l m n : ℕ) (a b c d : Symbol) → k < 4 → l < 4 → m < 4 → n < 4 → IsSymbol a → IsSymbol b → IsSymbol c → IsSymbol d → quarters ≡ twice k l m n → words ≡ words_of a b c d → result ≡ words_of (rotated k a) (rotated l b) (rotated m c) (rotated n d) }
{
    let odd = (quarters & u16x8::splat(1)).simd_eq(u16x8::splat(1));
    let chosen = odd.select(words.swizzle([1, 0, 3, 2, 5, 4, 7, 6]), words);
    let least = chosen.simd_eq(u16x8::splat(32768));
    let negative = u16x8::splat(0) - chosen + least.select(u16x8::splat(65535), u16x8::splat(0));
    let signs = quarters + u16x8::from_array([1, 0, 1, 0, 1, 0, 1, 0]);
    let negate = (signs & u16x8::splat(2)).simd_eq(u16x8::splat(2));
    negate.select(negative, chosen)
}

/// Four numbers of quarters, each in both lanes of its symbol.
#[inline(always)]
pub(crate) fn quarters_of(quarters: &[u16], at: usize) -> u16x8
    requires { at + 4 ≤ length quarters.now }
    ensures { result ≡ twice (slice_index quarters.now at) (slice_index quarters.now (at + 1)) (slice_index quarters.now (at + 2)) (slice_index quarters.now (at + 3)) }
{
    u16x4::from_array([
        quarters[at],
        quarters[at + 1],
        quarters[at + 2],
        quarters[at + 3],
    ])
    .swizzle([0, 0, 1, 1, 2, 2, 3, 3])
}

/// The numbers of quarters that undo a rotation by these numbers.
#[inline(always)]
pub(crate) fn back(quarters: u16x8) -> u16x8
    ensures { (k l m n : ℕ) → k < 4 → l < 4 → m < 4 → n < 4 → quarters ≡ twice k l m n → result ≡ twice ((4 - k) % 4) ((4 - l) % 4) ((4 - m) % 4) ((4 - n) % 4) }
{
    (u16x8::splat(4) - quarters) & u16x8::splat(3)
}

/// The four symbols from a place on, rotated.
#[inline(always)]
pub(crate) fn rotate_four(quarters: u16x8, symbols: &[Symbol], at: usize) -> [Symbol; 4]
    requires { at + 4 ≤ length symbols.now }
    ensures { (k l m n : ℕ) → k < 4 → l < 4 → m < 4 → n < 4 → quarters ≡ twice k l m n → result ≡ rotated k (symbol_at symbols.now at) ∷ rotated l (symbol_at symbols.now (at + 1)) ∷ rotated m (symbol_at symbols.now (at + 2)) ∷ rotated n (symbol_at symbols.now (at + 3)) ∷ [] }
{
    symbols_from(rotated_words(quarters, words_from(symbols, at)))
}
