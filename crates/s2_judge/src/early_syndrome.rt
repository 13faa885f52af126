//! A quick test whether a hard decision has an odd check, by a few checks. Most hard decisions that are not codewords
//! have an odd one among these, and need not be written.
ghost use Rattle.std.specs.Prelude.{◌≡◌, ◌%◌, ◌==◌, ◌<◌, All, IsTrue, count_by, pos, int_lt};
ghost use Rattle.s2_mode.specs.Shape.{code_bits};
ghost use Rattle.s2_matrix.specs.Code.{code_of, IsCodeword};
ghost use Rattle.s2_minsum.specs.Plain.{posterior as posterior_of, decision};
ghost use Rattle.s2_minsum.specs.Decoding.{decoded};

use s2_matrix::Matrix;
use s2_minsum::Decoder;

/// The number of checks that are tested.
pub(crate) const FIRST_CHECKS: usize = 64;

/// Whether an odd number of these places have a negative posterior.
fn is_odd(decoder: &Decoder<'_>, places: &[u32]) -> bool
    requires { All (λ i. i < code_bits decoder.now.rows.shape) places.now }
    ensures { result ≡ (count_by (λ i. int_lt (posterior_of (code_of decoder.now.rows) (decoded decoder.now) i) (pos 0)) places.now % 2 == 1) }
{
    let mut ones = 0usize;
    for place in places {
        ones += usize::from(decoder.posterior(*place as usize) < 0);
    }
    ones % 2 == 1
}

/// Whether one of the first few checks is odd under a decoder's hard decision, which then is no codeword.
pub(crate) fn decision_fails_early(matrix: &Matrix, decoder: &Decoder<'_>) -> bool
    requires { decoder.now.rows ≡ matrix.now }
    ensures { IsTrue result → IsCodeword (code_of matrix.now) (decision (code_of decoder.now.rows) (decoded decoder.now)) → ⊥ }
{
    for check in 0..FIRST_CHECKS.min(matrix.check_count()) {
        if is_odd(decoder, matrix.members_at(check)) {
            return true;
        }
    }
    false
}
