//! The symbols of a frame, multiplied by its factors.
ghost use Rattle.std.specs.Prelude.{◌≡◌, ℕ, ◌+◌, ◌-◌, ◌^◌, ◌≤◌, ◌<◌, ◌*ℤ◌, unsigned_abs, length};
ghost use Rattle.s2_mode.specs.Symbols.{symbol_at};
ghost use Rattle.s2_equalize.specs.Bounds.{AreWithin, factor_bound};
ghost use Rattle.s2_equalize.specs.Complex.{IsWithin, complex, nearest, number_of, times};
ghost use Rattle.s2_equalize.specs.Equalizer.{factor_at, limited, multiplied, stretch};

use crate::complex::Complex;
use crate::constants::PILOT_BLOCK;
use crate::factors::factor_at;
use s2_mode::{HEADER_SYMBOLS, Symbol};

/// A factor in 32 bits, and the number of binary digits after its point.
#[derive(Clone, Copy)]
struct Factor {
    re: i32,
    im: i32,
    digits: u32,
}

/// A component's product, without the digits after the point, limited to 16 bits.
#[inline(always)]
fn component(product: i32, digits: u32) -> i16
    requires some { 1 ≤ digits }
    requires few { digits ≤ 25 }
    requires size { unsigned_abs product ≤ 2 ^ 30 }
    ensures { result ≡ limited (nearest product (2 ^ digits)) }
{
    let half = 1i32 << (digits - 1);
    ((product + half) >> digits).clamp(-32768, 32767) as i16
}

/// The product of a component and a part of a factor.
#[inline(always)]
fn product(component: i16, part: i32) -> i32
    requires { unsigned_abs part ≤ factor_bound }
    ensures is { result ≡ component *ℤ part }
    ensures most { unsigned_abs result ≤ 2 ^ 29 }
{
    i32::from(component) * part
}

/// The real part of a symbol times a factor.
#[inline(always)]
fn real(symbol: Symbol, factor: Factor) -> i32
    requires { IsWithin factor_bound (complex factor.re factor.im) }
    ensures is { result ≡ (times (number_of symbol) (complex factor.re factor.im)).re }
    ensures most { unsigned_abs result ≤ 2 ^ 30 }
{
    product(symbol.i, factor.re) - product(symbol.q, factor.im)
}

/// The imaginary part.
#[inline(always)]
fn imaginary(symbol: Symbol, factor: Factor) -> i32
    requires { IsWithin factor_bound (complex factor.re factor.im) }
    ensures is { result ≡ (times (number_of symbol) (complex factor.re factor.im)).im }
    ensures most { unsigned_abs result ≤ 2 ^ 30 }
{
    product(symbol.q, factor.re) + product(symbol.i, factor.im)
}

/// A symbol times a factor.
#[inline(always)]
fn multiplied(symbol: Symbol, factor: Factor) -> Symbol
    requires some { 2 ≤ factor.digits }
    requires few { factor.digits ≤ 25 }
    requires size { IsWithin factor_bound (complex factor.re factor.im) }
    ensures { result ≡ multiplied (factor.digits - 2) (complex factor.re factor.im) symbol }
{
    Symbol {
        i: component(real(symbol, factor), factor.digits),
        q: component(imaginary(symbol, factor), factor.digits),
    }
}

/// Multiplies the symbols from `at` on, below `end`, by a factor.
fn multiply_each(symbols: &[Symbol], at: usize, end: usize, factor: Factor, out: &mut [Symbol])
    requires order { at ≤ end }
    requires inside { end ≤ length symbols.now }
    requires same { length out.old ≡ length symbols.now }
    requires some { 2 ≤ factor.digits }
    requires few { factor.digits ≤ 25 }
    requires size { IsWithin factor_bound (complex factor.re factor.im) }
    ensures before { (k : ℕ) → k < at → symbol_at out.new k ≡ symbol_at out.old k }
    ensures here { (k : ℕ) → at ≤ k → k < end → symbol_at out.new k ≡ multiplied (factor.digits - 2) (complex factor.re factor.im) (symbol_at symbols.now k) }
{
    for k in at..end {
        out[k] = multiplied(symbols[k], factor);
    }
}

/// The factor for a stretch, in 32 bits.
fn factor_of(factors: &[Complex], fineness: u32, stretch: usize) -> Factor
    requires some { 2 ≤ length factors.now }
    requires few { stretch < 1000 }
    requires most { AreWithin factor_bound factors.now }
    requires fineness { fineness ≤ 23 }
    ensures is { complex result.re result.im ≡ factor_at factors.now stretch }
    ensures digits { result.digits ≡ fineness + 2 }
    ensures most { IsWithin factor_bound (complex result.re result.im) }
{
    let factor = factor_at(factors, stretch);
    Factor {
        re: factor.re as i32,
        im: factor.im as i32,
        digits: fineness + 2,
    }
}

/// Multiplies the symbols of a frame by its factors. They change after the header's first stretch with each 36 symbols.
pub(crate) fn multiply_frame(
    factors: &[Complex],
    fineness: u32,
    symbols: &[Symbol],
    out: &mut [Symbol],
)
    requires some { 2 ≤ length factors.now }
    requires most { AreWithin factor_bound factors.now }
    requires fineness { fineness ≤ 23 }
    requires whole { HEADER_SYMBOLS ≤ length symbols.now }
    requires few { length symbols.now ≤ 33282 }
    requires same { length out.old ≡ length symbols.now }
    ensures { (i : ℕ) → i < length symbols.now
        → symbol_at out.new i ≡ multiplied fineness (factor_at factors.now (stretch i)) (symbol_at symbols.now i) }
{
    let stretches = (symbols.len() - HEADER_SYMBOLS).div_ceil(PILOT_BLOCK);
    multiply_each(
        symbols,
        0,
        HEADER_SYMBOLS,
        factor_of(factors, fineness, 0),
        out,
    );
    for stretch in 0..stretches {
        let factor = factor_of(factors, fineness, stretch);
        let at = HEADER_SYMBOLS + PILOT_BLOCK * stretch;
        let end = (at + PILOT_BLOCK).min(symbols.len());
        multiply_each(symbols, at, end, factor, out);
    }
}
