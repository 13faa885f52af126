//! The Chien search: a polynomial's roots among the powers of `alpha`.
ghost use Rattle.std.specs.Prelude.{◌≡◌, ◌≢◌, ◌<◌, ◌≤◌, ◌+◌, ◌*◌, ◌%◌, ℕ, List, Bool, true, length, slice_index_or};
ghost use Rattle.s2_bits.specs.Bits.{xor, differences};
ghost use Rattle.s2_bch.specs.Flips.{FlipsRoots, bit_from_end};

use crate::lanes::{LANES, advance, has_zero, put_terms};
use s2_field::{Field, pow};

/// Flips the bits of the lanes whose value is zero, and returns their number. Each lane has
/// `stride` places, counted from the word's end; `step` is the place within each lane.
fn flip_lanes<F: Field>(values: &[F], stride: usize, step: usize, word: &mut [bool]) -> usize
    requires lanes { length values.now ≡ 16 }
    requires step { step < stride }
    requires reach { 16 * stride ≤ length word.old + 16 }
    ensures hit { (l : ℕ) → l < 16 → stride * l + step < length word.old → slice_index_or values.now l F.field.zero ≡ F.field.zero
        → bit_from_end word.new (stride * l + step) ≡ xor true (bit_from_end word.old (stride * l + step)) }
    ensures miss { (l : ℕ) → l < 16 → stride * l + step < length word.old → slice_index_or values.now l F.field.zero ≢ F.field.zero
        → bit_from_end word.new (stride * l + step) ≡ bit_from_end word.old (stride * l + step) }
    ensures others { (e : ℕ) → e < length word.old → e % stride ≢ step → bit_from_end word.new e ≡ bit_from_end word.old e }
    ensures count { (o : List Bool) → length o ≡ length word.old
        → ((l : ℕ) → l < 16 → stride * l + step < length word.old → bit_from_end word.old (stride * l + step) ≡ bit_from_end o (stride * l + step))
        → differences (length o) o word.new ≡ differences (length o) o word.old + result }
{
    let mut count = 0;
    for lane in 0..LANES {
        let place = stride * lane + step;
        if place < word.len() && values[lane].is_zero() {
            let at = word.len() - 1 - place;
            word[at] = !word[at];
            count += 1;
        }
    }
    count
}

/// Flips each bit whose place e, counted from the end, makes `alpha`^e a root of the locator.
/// Returns the number of these bits. Sixteen lanes of places are tested at a time; `terms` and
/// `values` are room for them.
pub(crate) fn chien_search<F: Field>(
    locator: &[F],
    terms: &mut [F],
    values: &mut [F],
    word: &mut [bool],
) -> usize
    requires few { length locator.now ≤ 16 }
    requires room { length terms.old ≡ 256 }
    requires lanes { length values.old ≡ 16 }
    requires short { length word.old < 65536 }
    ensures flips { FlipsRoots F.field F.alpha locator.now word.old word.new }
    ensures count { result ≡ differences (length word.old) word.old word.new }
{
    let stride = word.len() / LANES + 1;
    put_terms(locator, pow(F::alpha(), stride as u32), terms);
    let mut count = 0;
    for step in 0..stride {
        advance(terms, locator.len(), values);
        let found = has_zero(values);
        if found {
            count += flip_lanes(values, stride, step, word);
        }
    }
    count
}
