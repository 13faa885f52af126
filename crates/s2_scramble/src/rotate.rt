//! Rotation of symbols by quarter turns.
ghost use Rattle.std.specs.Prelude.{◌≡◌, ℕ, ◌*◌, ◌/◌, ◌<◌, length, slice_index, if◌then◌else◌};
ghost use Rattle.s2_mode.specs.Symbols.{symbol_at};
ghost use Rattle.s2_scramble.specs.Rotations.{negative, rotated, rotated_back};

use crate::lanes::{back, quarters_of, rotate_four};
use s2_mode::{Symbol, put_four};

/// The symbol rotated by this number of quarters: an odd number exchanges the components, and one of them
/// or both change their sign. Nothing branches on the quarters, which follow no pattern.
#[inline(always)]
pub(crate) fn rotated(quarters: u16, symbol: Symbol) -> Symbol
    requires { quarters < 4 }
    ensures { result ≡ rotated quarters symbol }
{
    let Symbol { i, q } = symbol;
    let odd = quarters % 2 == 1;
    Symbol {
        i: signed((quarters + 1) % 4 >= 2, chosen(odd, q, i)),
        q: signed(quarters >= 2, chosen(odd, i, q)),
    }
}

/// The symbol rotated back by this number of quarters.
#[inline(always)]
pub(crate) fn rotated_back(quarters: u16, symbol: Symbol) -> Symbol
    requires { quarters < 4 }
    ensures { result ≡ rotated_back quarters symbol }
{
    rotated((4 - quarters) % 4, symbol)
}

/// One of two components.
#[inline(always)]
fn chosen(first: bool, a: i16, b: i16) -> i16
    ensures { result ≡ (if first then a else b) }
{
    if first { a } else { b }
}

/// A component, or its negative.
#[inline(always)]
fn signed(negate: bool, component: i16) -> i16
    ensures { result ≡ (if negate then negative component else component) }
{
    if negate {
        component.saturating_neg()
    } else {
        component
    }
}

/// Rotates whole fours of symbols, each symbol by its number of quarters.
fn rotate_fours(quarters: &[u16], symbols: &[Symbol], out: &mut [Symbol])
    requires same { length out.old ≡ length symbols.now }
    requires enough { length quarters.now ≡ length symbols.now }
    requires small { (k : ℕ) → k < length quarters.now → slice_index quarters.now k < 4 }
    ensures { (k : ℕ) → k < length symbols.now / 4 * 4 → symbol_at out.new k ≡ rotated (slice_index quarters.now k) (symbol_at symbols.now k) }
{
    for block in 0..symbols.len() / 4 {
        let at = 4 * block;
        let four = rotate_four(quarters_of(quarters, at), symbols, at);
        put_four(out, at, four);
    }
}

/// Rotates each symbol by its number of quarters.
pub(crate) fn rotate_each(quarters: &[u16], symbols: &[Symbol], out: &mut [Symbol])
    requires same { length out.old ≡ length symbols.now }
    requires enough { length quarters.now ≡ length symbols.now }
    requires small { (k : ℕ) → k < length quarters.now → slice_index quarters.now k < 4 }
    ensures { (k : ℕ) → k < length symbols.now → symbol_at out.new k ≡ rotated (slice_index quarters.now k) (symbol_at symbols.now k) }
{
    rotate_fours(quarters, symbols, out);
    for k in symbols.len() / 4 * 4..symbols.len() {
        out[k] = rotated(quarters[k], symbols[k]);
    }
}

/// Rotates whole fours of symbols back, each symbol by its number of quarters.
fn rotate_fours_back(quarters: &[u16], symbols: &[Symbol], out: &mut [Symbol])
    requires same { length out.old ≡ length symbols.now }
    requires enough { length quarters.now ≡ length symbols.now }
    requires small { (k : ℕ) → k < length quarters.now → slice_index quarters.now k < 4 }
    ensures { (k : ℕ) → k < length symbols.now / 4 * 4 → symbol_at out.new k ≡ rotated_back (slice_index quarters.now k) (symbol_at symbols.now k) }
{
    for block in 0..symbols.len() / 4 {
        let at = 4 * block;
        let four = rotate_four(back(quarters_of(quarters, at)), symbols, at);
        put_four(out, at, four);
    }
}

/// Rotates each symbol back by its number of quarters.
pub(crate) fn rotate_each_back(quarters: &[u16], symbols: &[Symbol], out: &mut [Symbol])
    requires same { length out.old ≡ length symbols.now }
    requires enough { length quarters.now ≡ length symbols.now }
    requires small { (k : ℕ) → k < length quarters.now → slice_index quarters.now k < 4 }
    ensures { (k : ℕ) → k < length symbols.now → symbol_at out.new k ≡ rotated_back (slice_index quarters.now k) (symbol_at symbols.now k) }
{
    rotate_fours_back(quarters, symbols, out);
    for k in symbols.len() / 4 * 4..symbols.len() {
        out[k] = rotated_back(quarters[k], symbols[k]);
    }
}
