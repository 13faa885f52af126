//! Fields, whatever their elements.
ghost use Rattle.std.specs.Prelude.{◌≡◌, ◌≢◌, ◌↔◌, ◌<◌, ◌≤◌, ℕ, IsTrue};
ghost use Rattle.s2_field.specs.Operations.{Operations};
ghost use Rattle.s2_field.specs.Laws.{FieldLaws, IsNumbered};
ghost use Rattle.s2_field.specs.Polynomials.{pow, HasOrder};

/// A finite field in which each element is its own negative, with an element whose powers are all
/// the others but zero.
pub trait Field: Copy + Drop {
    ghost field: { Operations Self };

    ghost alpha: { Self };

    ghost number: { Self → ℕ };

    ghost ORDER: { ℕ };

    /// How many elements there are besides zero, which is the order of `alpha`.
    const ORDER: usize;

    /// The neutral element of addition.
    fn zero() -> Self
        ensures { result ≡ field.zero };

    /// The neutral element of multiplication.
    fn one() -> Self
        ensures { result ≡ field.one };

    /// The root of the field's polynomial. Its powers are all elements but zero.
    fn alpha() -> Self
        ensures { result ≡ alpha };

    /// Whether this is zero.
    fn is_zero(self) -> bool
        ensures { IsTrue result ↔ (self ≡ field.zero) };

    /// The sum, which is the difference too.
    fn add(self, other: Self) -> Self
        ensures { result ≡ field.sum self other };

    /// The product.
    fn mul(self, other: Self) -> Self
        ensures { result ≡ field.product self other };

    /// The product with a power of `alpha`, the fifteenth at most.
    fn times_power(self, exponent: u32) -> Self
        requires { exponent ≤ 15 }
        ensures { result ≡ field.product (pow field alpha exponent) self };

    /// The inverse of an element that is not zero.
    fn inv(self) -> Self
        requires { self ≢ field.zero }
        ensures { result ≡ field.inverse self };

    /// The number of the element, from 0 to `ORDER`.
    fn number(self) -> usize
        ensures { result ≡ number self };

    ghost laws: { FieldLaws field };

    ghost order: { HasOrder field alpha ORDER };

    ghost numbered: { IsNumbered field.zero number ORDER };
}

/// The element multiplied by itself: x^exponent, and 1 for exponent 0.
pub fn pow<F: Field>(x: F, exponent: u32) -> F
    ensures { result ≡ pow F.field x exponent }
{
    let mut power = F::one();
    let mut square = x;
    let mut rest = exponent;
    while rest > 0 {
        if rest % 2 == 1 {
            power = power.mul(square);
        }
        square = square.mul(square);
        rest /= 2;
    }
    power
}
