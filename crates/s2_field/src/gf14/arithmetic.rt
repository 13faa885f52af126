//! The operations of `Gf14`.
ghost use Rattle.std.specs.Prelude.{◌≡◌, ◌<◌, ◌≤◌, ◌^◌, bit_xor};
ghost use Rattle.s2_field.specs.Binary.{times_x, times};
ghost use Rattle.s2_field.specs.Order.{iterate};
ghost use Rattle.s2_field.specs.Shifts.{folded_14};
ghost use Rattle.s2_field.specs.Inverse.{norm, inverse as number_inverse};
ghost use Rattle.s2_field.specs.Gf14.{field, alpha, number, laws, order, numbered};

use super::Gf14;
use crate::Field;

fn shift(a: u16) -> u16
    ensures value { result ≡ times_x 14 43 a }
    ensures below { result < 2 ^ 14 }
{
    ((a << 1) % 16384) ^ ((a >> 13) % 2 * 43)
}

fn sum_of_values(a: u16, b: u16) -> u16
    requires a_below { a < 2 ^ 14 }
    requires b_below { b < 2 ^ 14 }
    ensures value { result ≡ bit_xor a b }
    ensures below { result < 2 ^ 14 }
{
    a ^ b
}

fn multiply(a: u16, b: u16) -> u16
    requires { b < 2 ^ 14 }
    ensures value { result ≡ times 14 43 a b }
    ensures below { result < 2 ^ 14 }
{
    let mut rest = a;
    let mut shifted = b;
    let mut product = 0;
    for _ in 0..14u32 {
        product ^= rest % 2 * shifted;
        shifted = shift(shifted);
        rest /= 2;
    }
    product
}

/// `carried` times x^5 + x^3 + x + 1, to which x^14 is equal.
fn fold(carried: u16) -> u16
    ensures { result ≡ folded_14 carried }
{
    carried ^ (carried << 1) ^ (carried << 3) ^ (carried << 5)
}

/// x^exponent a: what a shift carries out of the 14 lowest bits, nine bits at most, is folded back.
fn shift_by(a: u16, exponent: u32) -> u16
    requires few { exponent ≤ 9 }
    requires a_below { a < 2 ^ 14 }
    ensures value { result ≡ iterate 14 43 exponent a }
    ensures below { result < 2 ^ 14 }
{
    ((a << exponent) % 16384) ^ fold(a >> (14 - exponent))
}

/// x^exponent a, without a table and alike for all elements, so that a loop over many goes by lanes.
fn raise(a: u16, exponent: u32) -> u16
    requires few { exponent ≤ 15 }
    requires a_below { a < 2 ^ 14 }
    ensures value { result ≡ iterate 14 43 exponent a }
    ensures below { result < 2 ^ 14 }
{
    if exponent <= 9 {
        shift_by(a, exponent)
    } else {
        shift_by(shift_by(a, 8), exponent - 8)
    }
}

fn invert(a: u16) -> u16
    requires { a < 2 ^ 14 }
    ensures value { result ≡ number_inverse 14 43 a }
    ensures below { result < 2 ^ 14 }
{
    let mut power = 1;
    for _ in 0..13u32 {
        power = multiply(a, multiply(power, power));
    }
    multiply(power, power)
}

impl Field for Gf14 {
    ghost field = { field };

    ghost alpha = { alpha };

    ghost number = { number };

    ghost ORDER = { 16383 };

    const ORDER: usize = 16383;

    ghost laws = { laws };

    ghost order = { order };

    ghost numbered = { numbered };

    fn zero() -> Gf14 {
        Gf14 { value: 0 }
    }

    fn one() -> Gf14 {
        Gf14 { value: 1 }
    }

    fn is_zero(self) -> bool {
        self.value == 0
    }

    fn add(self, other: Gf14) -> Gf14 {
        Gf14 {
            value: sum_of_values(self.value, other.value),
        }
    }

    fn mul(self, other: Gf14) -> Gf14 {
        Gf14 {
            value: multiply(self.value, other.value),
        }
    }

    fn times_power(self, exponent: u32) -> Gf14 {
        Gf14 {
            value: raise(self.value, exponent),
        }
    }

    fn inv(self) -> Gf14 {
        Gf14 {
            value: invert(self.value),
        }
    }

    fn alpha() -> Gf14 {
        Gf14 { value: 2 }
    }

    fn number(self) -> usize {
        usize::from(self.value)
    }
}
