//! Soft values of one symbol.
ghost use Rattle.std.specs.Prelude.{◌≡◌, neg_ℤ, ◌-ℤ◌};
ghost use Rattle.s2_soft.specs.Soft.{quantized};
ghost use Rattle.s2_soft.specs.Closed.{component_difference, along, across, axis, nearest, IsInner, IsNearest, first_difference, second_difference, third_difference};

use crate::divisor::Divisor;
use s2_map::{AXIS, DIAGONAL};
use s2_mode::{MAX_SOFT, Symbol};

/// The multiplier of a QPSK component in a difference of squared distances.
const ALONG: i32 = 4 * DIAGONAL as i32;

/// The multiplier of both components in twice an inner product with a point between the axes.
pub(crate) const BETWEEN: i32 = 2 * DIAGONAL as i32;

/// The multiplier of a component in twice an inner product with a point on an axis.
pub(crate) const ON_AXIS: i32 = 2 * AXIS as i32;

/// The squared length of a point on an axis less that of a point between the axes.
pub(crate) const LONGER: i32 = AXIS as i32 * AXIS as i32 - 2 * DIAGONAL as i32 * DIAGONAL as i32;

/// A difference of squared distances as a soft value.
#[inline(always)]
fn quantized(divisor: Divisor, difference: i32) -> i16
    ensures { result ≡ quantized divisor difference }
{
    let size = difference.unsigned_abs() / divisor.get();
    let least = size.min(u32::from(MAX_SOFT)) as i16;
    if difference < 0 { -least } else { least }
}

/// The soft value of a component of QPSK.
#[inline(always)]
pub(crate) fn component_value(divisor: Divisor, component: i16) -> i16
    ensures { result ≡ quantized divisor (component_difference component) }
{
    quantized(divisor, ALONG * i32::from(component))
}

/// The soft values of the three bits of an 8PSK label.
#[derive(Clone, Copy)]
pub(crate) struct Three {
    pub(crate) first: i16,
    pub(crate) second: i16,
    pub(crate) third: i16,
}

/// The soft values of a symbol of 8PSK.
#[inline(always)]
pub(crate) fn psk_values(divisor: Divisor, symbol: Symbol) -> Three
    ensures first { result.first ≡ quantized divisor (first_difference symbol.i symbol.q) }
    ensures second { result.second ≡ quantized divisor (second_difference symbol.i symbol.q) }
    ensures third { result.third ≡ quantized divisor (third_difference symbol.i symbol.q) }
{
    let Products { a, b, x, y } = inner_products(symbol);
    let c = opposite(a);
    let d = opposite(b);
    let z = opposite(x);
    let w = opposite(y);
    Three {
        first: nearer(divisor, nearest(a, c, x, z), nearest(b, d, y, w)),
        second: nearer(divisor, nearest(a, b, x, y), nearest(c, d, z, w)),
        third: nearer(divisor, nearest(a, d, z, y), nearest(c, b, x, w)),
    }
}

/// Twice the inner products of a symbol with the points (A, A), (A, -A), (B, 0) and (0, B).
#[derive(Clone, Copy)]
struct Products {
    a: i32,
    b: i32,
    x: i32,
    y: i32,
}

#[inline(always)]
fn inner_products(symbol: Symbol) -> Products
    ensures a { (result.a ≡ along symbol.i symbol.q) × IsInner result.a }
    ensures b { (result.b ≡ across symbol.i symbol.q) × IsInner result.b }
    ensures x { (result.x ≡ axis symbol.i) × IsInner result.x }
    ensures y { (result.y ≡ axis symbol.q) × IsInner result.y }
{
    let i = i32::from(symbol.i);
    let q = i32::from(symbol.q);
    Products {
        a: BETWEEN * (i + q),
        b: BETWEEN * (i - q),
        x: ON_AXIS * i,
        y: ON_AXIS * q,
    }
}

/// The inner product with the point on the other side.
#[inline(always)]
fn opposite(a: i32) -> i32
    requires { IsInner a }
    ensures is { result ≡ neg_ℤ a }
    ensures inner { IsInner result }
{
    -a
}

/// The greatest of twice the inner products with two points between the axes and with two on them,
/// whose squared lengths are larger.
#[inline(always)]
fn nearest(a: i32, b: i32, x: i32, y: i32) -> i32
    requires a { IsInner a }
    requires b { IsInner b }
    requires x { IsInner x }
    requires y { IsInner y }
    ensures is { result ≡ nearest a b x y }
    ensures bounded { IsNearest result }
{
    (a.max(b) + LONGER).max(x.max(y))
}

/// The soft value of a bit, from `nearest` of the points with 0 and of those with 1.
#[inline(always)]
fn nearer(divisor: Divisor, zero: i32, one: i32) -> i16
    requires zero { IsNearest zero }
    requires one { IsNearest one }
    ensures { result ≡ quantized divisor (zero -ℤ one) }
{
    quantized(divisor, zero - one)
}
