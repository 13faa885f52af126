//! Complex numbers with whole parts.
ghost use Rattle.std.specs.Prelude.{◌≡◌, ◌*◌, ◌^◌, ◌≤◌, ◌<◌, ◌*ℤ◌, neg_ℤ, unsigned_abs};
ghost use Rattle.s2_equalize.specs.Complex.{IsWithin, nearest};
ghost use Rattle.s2_equalize.specs.Complex as by;

use s2_mode::Symbol;

/// A complex number: its real and its imaginary part.
#[derive(Clone, Copy, Debug, PartialEq, Eq)]
pub struct Complex {
    /// The real part.
    pub re: i64,
    /// The imaginary part.
    pub im: i64,
}

/// The number 0.
pub(crate) const ORIGIN: Complex = Complex { re: 0, im: 0 };

/// A symbol as a number.
#[inline(always)]
pub(crate) fn number_of(symbol: Symbol) -> Complex
    ensures is { result ≡ by.number_of symbol }
    ensures most { IsWithin 32768 result }
{
    Complex {
        re: i64::from(symbol.i),
        im: i64::from(symbol.q),
    }
}

/// The product of two parts.
#[inline(always)]
fn product(a: i64, b: i64) -> i64
    requires a { unsigned_abs a ≤ 2 ^ 30 }
    requires b { unsigned_abs b ≤ 2 ^ 30 }
    ensures is { result ≡ a *ℤ b }
    ensures most { unsigned_abs result ≤ 2 ^ 60 }
{
    a * b
}

/// The sum of two numbers.
#[inline(always)]
pub(crate) fn plus(a: Complex, b: Complex) -> Complex
    requires a { IsWithin (2 ^ 60) a }
    requires b { IsWithin (2 ^ 60) b }
    ensures { result ≡ by.plus a b }
{
    Complex {
        re: a.re + b.re,
        im: a.im + b.im,
    }
}

/// A number multiplied by `n`.
#[inline(always)]
pub(crate) fn scaled(n: u64, a: Complex) -> Complex
    requires few { n ≤ 2 ^ 60 }
    requires re { n * unsigned_abs a.re ≤ 2 ^ 60 }
    requires im { n * unsigned_abs a.im ≤ 2 ^ 60 }
    ensures { result ≡ by.scaled n a }
{
    let n = n as i64;
    Complex {
        re: n * a.re,
        im: n * a.im,
    }
}

/// The product of two numbers.
#[inline(always)]
pub(crate) fn times(a: Complex, b: Complex) -> Complex
    requires a { IsWithin (2 ^ 30) a }
    requires b { IsWithin (2 ^ 30) b }
    ensures { result ≡ by.times a b }
{
    Complex {
        re: product(a.re, b.re) - product(a.im, b.im),
        im: product(a.im, b.re) + product(a.re, b.im),
    }
}

/// The conjugate of a number.
#[inline(always)]
pub(crate) fn conjugate(a: Complex) -> Complex
    requires { IsWithin (2 ^ 60) a }
    ensures { result ≡ by.conjugate a }
{
    Complex {
        re: a.re,
        im: -a.im,
    }
}

/// The product of a number and the conjugate of another.
#[inline(always)]
pub(crate) fn times_conjugate(a: Complex, b: Complex) -> Complex
    requires a { IsWithin (2 ^ 30) a }
    requires b { IsWithin (2 ^ 30) b }
    ensures { result ≡ by.times_conjugate a b }
{
    Complex {
        re: product(a.re, b.re) + product(a.im, b.im),
        im: product(a.im, b.re) - product(a.re, b.im),
    }
}

/// The square of a part.
#[inline(always)]
fn square(part: i64) -> u64
    requires { unsigned_abs part ≤ 2 ^ 30 }
    ensures is { result ≡ unsigned_abs part * unsigned_abs part }
    ensures most { result ≤ 2 ^ 60 }
{
    let size = part.unsigned_abs();
    size * size
}

/// The squared size of a number.
#[inline(always)]
pub(crate) fn energy(a: Complex) -> u64
    requires { IsWithin (2 ^ 30) a }
    ensures is { result ≡ by.energy a }
    ensures most { result ≤ 2 ^ 61 }
{
    square(a.re) + square(a.im)
}

/// A whole number divided by `n`, to the nearest whole number.
#[inline(always)]
#[tactic(auto, unfolding(crate::specs::Complex::nearest))]
fn nearest(x: i64, n: u64) -> i64
    requires some { 0 < n }
    requires few { n ≤ 2 ^ 61 }
    requires size { unsigned_abs x ≤ 2 ^ 61 }
    ensures { result ≡ nearest x n }
{
    let half = (n / 2) as i64;
    (x + half).div_euclid(n as i64)
}

/// Both parts divided by `n`, to the nearest whole numbers.
#[inline(always)]
pub(crate) fn over(n: u64, a: Complex) -> Complex
    requires some { 0 < n }
    requires few { n ≤ 2 ^ 61 }
    requires size { IsWithin (2 ^ 61) a }
    ensures { result ≡ by.over n a }
{
    Complex {
        re: nearest(a.re, n),
        im: nearest(a.im, n),
    }
}
