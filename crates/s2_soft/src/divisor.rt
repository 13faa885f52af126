//! Divisors of differences of squared distances.
ghost use Rattle.std.specs.Prelude.{◌≡◌, ◌↔◌, ◌≤◌, ◌^◌, IsSome, IfSome};
ghost use Rattle.s2_soft.specs.Divisors.{IsDivisor, default_divisor, factor_of};

use s2_map::DIAGONAL;
use std::marker::Model;

/// The divisors, from the finest soft values to the coarsest.
pub const DIVISORS: [u32; 5] = [4096, 8192, 16384, 32768, 65536];

/// The divisor if none is named.
pub const DEFAULT_DIVISOR: u32 = 4096;

/// A divisor of differences of squared distances: one of [`DIVISORS`]. Its value is that number.
///
/// Twice the divisor halves the soft values. With 4096, a QPSK point of 700 has the soft value 478, and components over
/// 1.07 times as large are clipped to [`s2_mode::MAX_SOFT`]. If noise is strong, as at low rates, 8192 loses less.
/// Symbols of a larger amplitude need a divisor that is larger in proportion.
#[derive(Clone, Copy, Debug, PartialEq, Eq)]
pub struct Divisor {
    number: u32,
    factor: u16,
}

impl Model for Divisor {
    ghost use Rattle.std.specs.Prelude.{◌≡◌, ℕ};
    ghost use Rattle.std.proofs.Common.{sym};
    ghost use Rattle.s2_soft.specs.Divisors.{IsDivisor, factor_of};

    ghost Value = { ℕ };

    ghost view = { λ d. d.number };

    ghost invariant = { λ d. IsDivisor d.number × (d.factor ≡ factor_of d.number) };

    ghost inverse = { λ v. record { number = v; factor = factor_of v } };

    ghost inverse_ok = { λ d held. λ t. record { number = d.number; factor = sym held.1 t } };
}

/// The multiplier of a QPSK component if 65536 divides the product.
fn factor_of(number: u32) -> u16
    requires { IsDivisor number }
    ensures { result ≡ factor_of number }
{
    (4 * DIAGONAL as u32 * (65536 / number)) as u16
}

impl Divisor {
    /// The divisor of this number, if there is one.
    pub fn new(number: u32) -> Option<Divisor>
        ensures found { IsSome result ↔ IsDivisor number }
        ensures value { IfSome result (λ d. d ≡ number) }
    {
        if DIVISORS.contains(&number) {
            Some(Divisor::of(number))
        } else {
            None
        }
    }

    /// The divisor of a number that is one.
    pub fn of(number: u32) -> Divisor
        requires { IsDivisor number }
        ensures { result ≡ number }
    {
        Divisor {
            number,
            factor: factor_of(number),
        }
    }

    /// The divisor if none is named.
    pub fn usual() -> Divisor
        ensures { result ≡ default_divisor }
    {
        Divisor::of(DEFAULT_DIVISOR)
    }

    /// The number.
    pub fn get(self) -> u32
        ensures value { result ≡ self }
        ensures known { IsDivisor result }
    {
        self.number
    }

    /// Its logarithm to base 2.
    pub(crate) fn shift(self) -> u32
        ensures power { self ≡ 2 ^ result }
        ensures most { result ≤ 16 }
        ensures known { IsDivisor self }
    {
        match self.number {
            4096 => 12,
            8192 => 13,
            16384 => 14,
            32768 => 15,
            _ => 16,
        }
    }

    /// The multiplier of a QPSK component if 65536 divides the product.
    pub(crate) fn factor(self) -> u16
        ensures is { result ≡ factor_of self }
        ensures known { IsDivisor self }
    {
        self.factor
    }
}
