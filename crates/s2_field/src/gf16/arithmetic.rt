//! The operations of `Gf16`.
ghost use Rattle.std.specs.Prelude.{◌≡◌, ◌<◌, ◌≤◌, ◌^◌};
ghost use Rattle.s2_field.specs.Binary.{times_x, times};
ghost use Rattle.s2_field.specs.Order.{iterate};
ghost use Rattle.s2_field.specs.Shifts.{folded_16};
ghost use Rattle.s2_field.specs.Inverse.{norm, inverse as number_inverse};
ghost use Rattle.s2_field.specs.Gf16.{field, alpha, number, laws, order, numbered};

use super::Gf16;
use crate::Field;

fn shift(a: u16) -> u16
    ensures { result ≡ times_x 16 45 a }
{
    (a << 1) ^ ((a >> 15) * 45)
}

fn multiply(a: u16, b: u16) -> u16
    ensures { result ≡ times 16 45 a b }
{
    let mut rest = a;
    let mut shifted = b;
    let mut product = 0;
    for _ in 0..16u32 {
        product ^= rest % 2 * shifted;
        shifted = shift(shifted);
        rest /= 2;
    }
    product
}

/// `carried` times x^5 + x^3 + x^2 + 1, to which x^16 is equal.
fn fold(carried: u16) -> u16
    ensures { result ≡ folded_16 carried }
{
    carried ^ (carried << 2) ^ (carried << 3) ^ (carried << 5)
}

/// x^exponent a: what a shift carries out of the 16 lowest bits, eleven bits at most, is folded back.
fn shift_by(a: u16, exponent: u32) -> u16
    requires { exponent ≤ 11 }
    ensures { result ≡ iterate 16 45 exponent a }
{
    let carried = (a >> (15 - exponent)) >> 1;
    (a << exponent) ^ fold(carried)
}

/// x^exponent a, without a table and alike for all elements, so that a loop over many goes by lanes.
fn raise(a: u16, exponent: u32) -> u16
    requires { exponent ≤ 15 }
    ensures { result ≡ iterate 16 45 exponent a }
{
    if exponent <= 11 {
        shift_by(a, exponent)
    } else {
        shift_by(shift_by(a, 8), exponent - 8)
    }
}

fn invert(a: u16) -> u16
    ensures { result ≡ number_inverse 16 45 a }
{
    let mut power = 1;
    for _ in 0..15u32 {
        power = multiply(a, multiply(power, power));
    }
    multiply(power, power)
}

impl Field for Gf16 {
    ghost field = { field };

    ghost alpha = { alpha };

    ghost number = { number };

    ghost ORDER = { 65535 };

    const ORDER: usize = 65535;

    ghost laws = { laws };

    ghost order = { order };

    ghost numbered = { numbered };

    fn zero() -> Gf16 {
        Gf16 { value: 0 }
    }

    fn one() -> Gf16 {
        Gf16 { value: 1 }
    }

    fn is_zero(self) -> bool {
        self.value == 0
    }

    fn add(self, other: Gf16) -> Gf16 {
        Gf16 {
            value: self.value ^ other.value,
        }
    }

    fn mul(self, other: Gf16) -> Gf16 {
        Gf16 {
            value: multiply(self.value, other.value),
        }
    }

    fn times_power(self, exponent: u32) -> Gf16 {
        Gf16 {
            value: raise(self.value, exponent),
        }
    }

    fn inv(self) -> Gf16 {
        Gf16 {
            value: invert(self.value),
        }
    }

    fn alpha() -> Gf16 {
        Gf16 { value: 2 }
    }

    fn number(self) -> usize {
        usize::from(self.value)
    }
}
