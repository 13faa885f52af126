//! The terms of a polynomial at 16 elements at a time, one lane each.
ghost use Rattle.std.specs.Prelude.{◌≡◌, ◌≢◌, ◌<◌, ◌≤◌, ◌+◌, ◌*◌, ℕ, List, false, length, slice_index_or};
ghost use Rattle.s2_field.specs.Polynomials.{pow, eval};
ghost use Rattle.s2_bch.specs.Terms.{AreTerms};

use s2_field::Field;

/// How many elements a polynomial is evaluated at together.
pub(crate) const LANES: usize = 16;

/// A row of terms: the coefficient times 1, the ratio, its square and so on.
fn put_row<F: Field>(coefficient: F, ratio: F, terms: &mut [F], at: usize)
    requires { at + 16 ≤ length terms.old }
    ensures row { (l : ℕ) → l < 16 → slice_index_or terms.new (at + l) F.field.zero ≡ F.field.product coefficient (pow F.field ratio l) }
    ensures before { (k : ℕ) → k < at → slice_index_or terms.new k F.field.zero ≡ slice_index_or terms.old k F.field.zero }
{
    let mut term = coefficient;
    for lane in 0..LANES {
        terms[at + lane] = term;
        term = term.mul(ratio);
    }
}

/// The polynomial's terms at 1, x, x^2 and so on, a lane each: a row for each coefficient.
pub(crate) fn put_terms<F: Field>(polynomial: &[F], x: F, terms: &mut [F])
    requires { 16 * length polynomial.now ≤ length terms.old }
    ensures { AreTerms F.field polynomial.now (λ l. pow F.field x l) terms.new }
{
    let mut ratio = F::one();
    for j in 0..polynomial.len() {
        put_row(polynomial[j], ratio, terms, LANES * j);
        ratio = ratio.mul(x);
    }
}

/// Adds a row of terms to the lanes' values, and multiplies each term by a power of `alpha`. Nothing
/// but this is in the loop, so that it goes by lanes.
#[inline(always)]
fn move_row<F: Field>(terms: &mut [F], at: usize, power: u32, values: &mut [F])
    requires row { at + 16 ≤ length terms.old }
    requires lanes { length values.old ≡ 16 }
    requires power { power ≤ 15 }
    ensures values { (l : ℕ) → l < 16 → slice_index_or values.new l F.field.zero ≡ F.field.sum (slice_index_or values.old l F.field.zero) (slice_index_or terms.old (at + l) F.field.zero) }
    ensures moved { (l : ℕ) → l < 16 → slice_index_or terms.new (at + l) F.field.zero ≡ F.field.product (pow F.field F.alpha power) (slice_index_or terms.old (at + l) F.field.zero) }
    ensures before { (k : ℕ) → k < at → slice_index_or terms.new k F.field.zero ≡ slice_index_or terms.old k F.field.zero }
    ensures behind { (k : ℕ) → at + 16 ≤ k → slice_index_or terms.new k F.field.zero ≡ slice_index_or terms.old k F.field.zero }
{
    for lane in 0..LANES {
        let term = terms[at + lane];
        values[lane] = values[lane].add(term);
        terms[at + lane] = term.times_power(power);
    }
}

/// Makes the lanes' values zero.
#[inline(always)]
fn clear<F: Field>(values: &mut [F])
    requires { length values.old ≡ 16 }
    ensures { (l : ℕ) → l < 16 → slice_index_or values.new l F.field.zero ≡ F.field.zero }
{
    for lane in 0..LANES {
        values[lane] = F::zero();
    }
}

/// The polynomial's values at the lanes' elements, of their terms, which become those at `alpha`
/// times these elements. `count` is how many coefficients it has.
#[inline(always)]
pub(crate) fn advance<F: Field>(terms: &mut [F], count: usize, values: &mut [F])
    requires few { count ≤ 16 }
    requires room { 16 * count ≤ length terms.old }
    requires lanes { length values.old ≡ 16 }
    ensures values { (f : List F) (x : ℕ → F) → length f ≡ count → AreTerms F.field f x terms.old
        → (l : ℕ) → l < 16 → slice_index_or values.new l F.field.zero ≡ eval F.field f (x l) }
    ensures terms { (f : List F) (x : ℕ → F) → length f ≡ count → AreTerms F.field f x terms.old
        → AreTerms F.field f (λ l. F.field.product F.alpha (x l)) terms.new }
{
    clear(values);
    for j in 0..count {
        move_row(terms, LANES * j, j as u32, values);
    }
}

/// Whether a value is zero.
#[inline(always)]
pub(crate) fn has_zero<F: Field>(values: &[F]) -> bool
    requires { length values.now ≡ 16 }
    ensures { result ≡ false → (l : ℕ) → l < 16 → slice_index_or values.now l F.field.zero ≢ F.field.zero }
{
    let mut found = false;
    for lane in 0..LANES {
        found |= values[lane].is_zero();
    }
    found
}
