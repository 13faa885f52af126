//! Correlations of single symbols, and their sums.
ghost use Rattle.std.specs.Prelude.{◌≡◌, ◌^◌, ◌≤◌, ◌+ℤ◌, ◌-ℤ◌, ◌*ℤ◌, unsigned_abs};
ghost use Rattle.s2_message.specs.Correlation.{IsWithin};
ghost use Rattle.s2_message.specs.Correlation as by;

use crate::header::symbol_energy;
use s2_mode::Symbol;
use s2_report::Correlation;

/// The correlation of no symbol.
pub(crate) const NO_CORRELATION: Correlation = Correlation {
    power: 0,
    along: 0,
    across: 0,
};

/// The product of two components.
#[inline(always)]
fn product(a: i16, b: i16) -> i64
    ensures is { result ≡ a *ℤ b }
    ensures most { unsigned_abs result ≤ 2 ^ 30 }
{
    i64::from(a) * i64::from(b)
}

/// The real part of a received symbol, multiplied by the conjugate of the symbol that was sent.
#[inline(always)]
fn along(r: Symbol, s: Symbol) -> i64
    ensures is { result ≡ r.i *ℤ s.i +ℤ r.q *ℤ s.q }
    ensures most { unsigned_abs result ≤ 2 ^ 31 }
{
    product(r.i, s.i) + product(r.q, s.q)
}

/// The imaginary part.
#[inline(always)]
fn across(r: Symbol, s: Symbol) -> i64
    ensures is { result ≡ r.q *ℤ s.i -ℤ r.i *ℤ s.q }
    ensures most { unsigned_abs result ≤ 2 ^ 31 }
{
    product(r.q, s.i) - product(r.i, s.q)
}

/// The correlation of a received symbol and the symbol that was sent.
#[inline(always)]
pub(crate) fn correlation(r: Symbol, s: Symbol) -> Correlation
    ensures is { result ≡ by.correlation r s }
    ensures most { IsWithin 1 result }
{
    Correlation {
        power: symbol_energy(r),
        along: along(r, s),
        across: across(r, s),
    }
}

/// Two correlations in one.
#[inline(always)]
pub(crate) fn plus(a: Correlation, b: Correlation) -> Correlation
    requires a { IsWithin (2 ^ 20) a }
    requires b { IsWithin (2 ^ 20) b }
    ensures { result ≡ by.plus a b }
{
    Correlation {
        power: a.power + b.power,
        along: a.along + b.along,
        across: a.across + b.across,
    }
}

/// What is left of a correlation without a part of it.
pub(crate) fn minus(all: Correlation, part: Correlation) -> Correlation
    requires all { IsWithin (2 ^ 20) all }
    requires part { IsWithin (2 ^ 20) part }
    requires power { part.power ≤ all.power }
    ensures { result ≡ by.minus all part }
{
    Correlation {
        power: all.power - part.power,
        along: all.along - part.along,
        across: all.across - part.across,
    }
}
