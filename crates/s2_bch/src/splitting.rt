//! Whether a polynomial can have as many different roots in the field as its degree.
//!
//! The elements of a field of q elements are the roots of x^q + x. So a polynomial of degree d with d
//! different roots in the field divides it, and x^q is x modulo this polynomial. For q = 2^m that
//! takes m squares, far less than a search for the roots.
//!
//! A polynomial here is x^d + `low`, and a remainder has d coefficients, the constant first.
ghost use Rattle.std.specs.Prelude.{◌≡◌, ◌<◌, ◌≤◌, ◌^◌, List, false, length};
ghost use Rattle.s2_field.specs.Polynomials.{eval};
ghost use Rattle.s2_bch.specs.Splitting.{IsRoot, AreItsRoots};

use s2_field::{Field, degree};

/// Makes all coefficients zero.
fn clear<F: Field>(polynomial: &mut [F])
    ensures { (y : F) → eval F.field polynomial.new y ≡ F.field.zero }
{
    for i in 0..polynomial.len() {
        polynomial[i] = F::zero();
    }
}

/// Adds a polynomial times the factor to the remainder.
fn add_multiple<F: Field>(remainder: &mut [F], polynomial: &[F], factor: F)
    requires { length polynomial.now ≡ length remainder.old }
    ensures { (y : F) → eval F.field remainder.new y
        ≡ F.field.sum (eval F.field remainder.old y) (F.field.product (eval F.field polynomial.now y) factor) }
{
    if factor.is_zero() {
        return;
    }
    for i in 0..polynomial.len() {
        remainder[i] = remainder[i].add(polynomial[i].mul(factor));
    }
}

/// Multiplies the remainder by x, modulo x^d + `low`.
fn times_x<F: Field>(remainder: &mut [F], low: &[F])
    requires same_size { length low.now ≡ length remainder.old }
    requires some { 0 < length remainder.old }
    ensures { (y : F) → IsRoot F.field low.now y
        → eval F.field remainder.new y ≡ F.field.product y (eval F.field remainder.old y) }
{
    let last = remainder.len() - 1;
    let top = remainder[last];
    remainder.copy_within(..last, 1);
    remainder[0] = F::zero();
    add_multiple(remainder, low, top);
}

/// Squares the remainder, modulo x^d + `low`. The square of a sum is the sum of the squares in this
/// field. So the square has the coefficients' squares at x^0, x^2, x^4 and so on, and Horner's rule
/// in x^2 adds them up. `room` is for the result.
fn square<F: Field>(remainder: &mut [F], low: &[F], room: &mut [F])
    requires same_size { length low.now ≡ length remainder.old }
    requires room { length room.old ≡ length remainder.old }
    requires some { 0 < length remainder.old }
    ensures { (y : F) → IsRoot F.field low.now y → eval F.field remainder.new y
        ≡ F.field.product (eval F.field remainder.old y) (eval F.field remainder.old y) }
{
    clear(room);
    let mut i = remainder.len();
    while i > 0 {
        i -= 1;
        times_x(room, low);
        times_x(room, low);
        room[0] = room[0].add(remainder[i].mul(remainder[i]));
    }
    remainder.copy_from_slice(room);
}

/// Whether x^(2^m) is x modulo x^d + `low`. `remainder` and `room` are for d coefficients each.
fn power_is_x<F: Field>(low: &[F], m: u32, remainder: &mut [F], room: &mut [F]) -> bool
    requires remainder { length remainder.old ≡ length low.now }
    requires room { length room.old ≡ length low.now }
    ensures { result ≡ false → (xs : List F) → AreItsRoots F.field (2 ^ m) low.now xs → ⊥ }
{
    if low.len() < 2 {
        return true;
    }
    clear(remainder);
    remainder[1] = remainder[1].add(F::one());
    for _ in 0..m {
        square(remainder, low, room);
    }
    remainder[1] = remainder[1].add(F::one());
    degree(remainder).is_none()
}

/// False only if x^d + `low` has fewer than d different roots in the field of 2^m elements.
/// `remainder` and `room` are for d coefficients each.
pub(crate) fn may_split<F: Field>(low: &[F], m: u32, remainder: &mut [F], room: &mut [F]) -> bool
    requires remainder { length low.now ≤ length remainder.old }
    requires room { length low.now ≤ length room.old }
    ensures { result ≡ false → (xs : List F) → AreItsRoots F.field (2 ^ m) low.now xs → ⊥ }
{
    let d = low.len();
    power_is_x(low, m, &mut remainder[..d], &mut room[..d])
}
