//! Polynomials over a field, by their coefficients, the constant first.
ghost use Rattle.std.specs.Prelude.{◌≡◌, ℕ, ◌<◌, length, slice_index_or, IfSome, IfNone};
ghost use Rattle.s2_field.specs.Polynomials.{eval, IsDegree, IsZeroFrom};

use crate::Field;

/// The polynomial's value at x.
pub fn eval<F: Field>(polynomial: &[F], x: F) -> F
    ensures { result ≡ eval F.field polynomial.now x }
{
    let mut value = F::zero();
    let mut i = polynomial.len();
    while i > 0 {
        i -= 1;
        value = polynomial[i].add(x.mul(value));
    }
    value
}

/// The polynomial's degree. `None` if all coefficients are zero.
pub fn degree<F: Field>(polynomial: &[F]) -> Option<usize>
    ensures some { IfSome result (λ d. IsDegree F.field.zero d polynomial.now) }
    ensures none { IfNone result (IsZeroFrom F.field.zero 0 polynomial.now) }
{
    let mut i = polynomial.len();
    while i > 0 {
        i -= 1;
        if !polynomial[i].is_zero() {
            return Some(i);
        }
    }
    None
}
