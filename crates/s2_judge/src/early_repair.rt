//! A quick test whether the repair of a hard decision leaves a check odd, by a few checks. Most repairs that are not
//! codewords leave one of these odd, and need not be made.
ghost use Rattle.std.specs.Prelude.{◌≡◌, ◌%◌, ◌==◌, ◌<◌, All, IsTrue, List, ℤ, length, count_by};
ghost use Rattle.std.specs.List.{list_all};
ghost use Rattle.s2_bits.specs.Bits.{bit_at};
ghost use Rattle.s2_matrix.specs.Code.{code_of, ones_in, IsCodeword};
ghost use Rattle.s2_check.specs.Hard.{hard_decision};
ghost use Rattle.s2_split.specs.Scattered.{repaired};
ghost use Rattle.s2_judge.specs.EarlyRepair.{repaired_bit};

use crate::early_syndrome::FIRST_CHECKS;
use s2_matrix::Matrix;

/// Whether an odd number of these places hold a one.
fn is_odd(word: &[bool], places: &[u32]) -> bool
    requires { All (λ i. i < length word.now) places.now }
    ensures { result ≡ (count_by (bit_at word.now) places.now % 2 == 1) }
{
    let mut ones = 0usize;
    for place in places {
        ones += usize::from(word[*place as usize]);
    }
    ones % 2 == 1
}

/// Whether all of these checks are odd.
fn are_odd(matrix: &Matrix, word: &[bool], checks: &[u32]) -> bool
    requires word { length word.now ≡ (code_of matrix.now).bits }
    requires checks { All (λ j. j < (code_of matrix.now).checks) checks.now }
    ensures { result ≡ list_all (λ j. ones_in (code_of matrix.now) word.now j % 2 == 1) checks.now }
{
    for check in checks {
        if !is_odd(word, matrix.members_at(*check as usize)) {
            return false;
        }
    }
    true
}

/// A bit of the repair: that of the word, flipped where it is in at least two checks, all of them odd.
fn repaired_bit(matrix: &Matrix, word: &[bool], bit: usize) -> bool
    requires word { length word.now ≡ (code_of matrix.now).bits }
    requires bit { bit < (code_of matrix.now).bits }
    ensures { result ≡ repaired_bit (code_of matrix.now) word.now bit }
{
    let checks = matrix.checks_at(bit);
    if checks.len() >= 2 && are_odd(matrix, word, checks) {
        !word[bit]
    } else {
        word[bit]
    }
}

/// Whether the repair holds an odd number of ones at these places.
fn stays_odd(matrix: &Matrix, word: &[bool], places: &[u32]) -> bool
    requires word { length word.now ≡ (code_of matrix.now).bits }
    requires places { All (λ i. i < (code_of matrix.now).bits) places.now }
    ensures { result ≡ (count_by (repaired_bit (code_of matrix.now) word.now) places.now % 2 == 1) }
{
    let mut ones = 0usize;
    for place in places {
        ones += usize::from(repaired_bit(matrix, word, *place as usize));
    }
    ones % 2 == 1
}

/// Whether the repair of a hard decision leaves one of the first few checks odd, and so is no codeword.
pub(crate) fn repair_fails_early(matrix: &Matrix, word: &[bool]) -> bool
    requires { length word.now ≡ (code_of matrix.now).bits }
    ensures { IsTrue result → (soft : List ℤ) → word.now ≡ hard_decision soft → IsCodeword (code_of matrix.now) (repaired (code_of matrix.now) soft) → ⊥ }
{
    for check in 0..FIRST_CHECKS.min(matrix.check_count()) {
        if stays_odd(matrix, word, matrix.members_at(check)) {
            return true;
        }
    }
    false
}
