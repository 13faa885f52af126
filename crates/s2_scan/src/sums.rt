//! Sums of symbols.
ghost use Rattle.std.specs.Prelude.{◌≡◌, ◌≤◌, ◌^◌, neg_ℤ, unsigned_abs, if◌then◌else◌};
ghost use Rattle.s2_scan.specs.Inside.{IsWithin};
ghost use Rattle.s2_scan.specs.Sums as by;

use s2_mode::Symbol;

/// The components of a sum of symbols.
#[derive(Clone, Copy)]
pub(crate) struct Sum {
    pub(crate) i: i64,
    pub(crate) q: i64,
}

/// The sum of no symbol.
pub(crate) const NO_SUM: Sum = Sum { i: 0, q: 0 };

/// A component, negated or not.
fn negated_if(negates: bool, component: i16) -> i64
    ensures is { result ≡ (if negates then neg_ℤ component else component) }
    ensures within { unsigned_abs result ≤ 32768 }
{
    if negates {
        -i64::from(component)
    } else {
        i64::from(component)
    }
}

/// A symbol, conjugated or not.
pub(crate) fn conjugated_if(conjugate: bool, symbol: Symbol) -> Sum
    ensures is { result ≡ by.conjugated_if conjugate symbol }
    ensures within { IsWithin 32768 result }
{
    Sum {
        i: negated_if(false, symbol.i),
        q: negated_if(conjugate, symbol.q),
    }
}

/// Two sums together.
#[inline(always)]
pub(crate) fn plus(a: Sum, b: Sum) -> Sum
    requires a { IsWithin (2 ^ 40) a }
    requires b { IsWithin (2 ^ 40) b }
    ensures { result ≡ by.plus a b }
{
    Sum {
        i: a.i + b.i,
        q: a.q + b.q,
    }
}

/// A sum that is rotated back by quarters.
#[inline(always)]
pub(crate) fn turned_back(quarters: u8, sum: Sum) -> Sum
    requires { IsWithin (2 ^ 40) sum }
    ensures { result ≡ by.turned_back quarters sum }
{
    if quarters == 0 {
        sum
    } else if quarters == 1 {
        Sum {
            i: sum.q,
            q: -sum.i,
        }
    } else if quarters == 2 {
        Sum {
            i: -sum.i,
            q: -sum.q,
        }
    } else {
        Sum {
            i: -sum.q,
            q: sum.i,
        }
    }
}

/// I * I + Q * Q.
#[inline(always)]
pub(crate) fn energy(sum: Sum) -> u64
    requires { IsWithin 37748736 sum }
    ensures { result ≡ by.energy sum }
{
    let i = sum.i.unsigned_abs();
    let q = sum.q.unsigned_abs();
    i * i + q * q
}
