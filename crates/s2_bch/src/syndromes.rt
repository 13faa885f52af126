//! The syndromes of a word: its values at powers of `alpha`.
ghost use Rattle.std.specs.Prelude.{◌≡◌, ◌<◌, ◌≤◌, ℕ, suc, length, slice_index_or};
ghost use Rattle.s2_field.specs.Polynomials.{pow};
ghost use Rattle.s2_bch.specs.Values.{value_at};

use s2_field::Field;

/// The product with a power of alpha.
#[inline(always)]
fn times_alpha<F: Field>(value: F, power: u32) -> F
    requires { power ≤ 30 }
    ensures { result ≡ F.field.product value (pow F.field F.alpha power) }
{
    let first = power / 2;
    value.times_power(first).times_power(power - first)
}

/// The word's value at a power of alpha.
fn evaluate_word<F: Field>(word: &[bool], power: u32) -> F
    requires { power ≤ 30 }
    ensures { result ≡ value_at F.field word.now (pow F.field F.alpha power) }
{
    let mut value = F::zero();
    for bit in word {
        value = times_alpha(value, power);
        if *bit {
            value = value.add(F::one());
        }
    }
    value
}

/// The word's values at alpha, alpha^2 and so on.
pub(crate) fn put_syndromes<F: Field>(word: &[bool], syndromes: &mut [F])
    requires { length syndromes.old ≤ 30 }
    ensures { (j : ℕ) → j < length syndromes.old → slice_index_or syndromes.new j F.field.zero
        ≡ value_at F.field word.now (pow F.field F.alpha (suc j)) }
{
    for j in 0..syndromes.len() {
        syndromes[j] = evaluate_word(word, j as u32 + 1);
    }
}
