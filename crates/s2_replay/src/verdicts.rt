//! The verdict on bits that are not searched.
ghost use Rattle.std.specs.Prelude.{◌≡◌, length};
ghost use Rattle.s2_matrix.specs.Code.{code_of};
ghost use Rattle.s2_replay.specs.Certificates.{IsParityVerdict};

use s2_bits::Bits;
use s2_check::Verdict;
use s2_matrix::Matrix;

/// The verdict on bits without a certificate: `Parity` if they satisfy all checks, else `Broken`.
pub fn parity_verdict(matrix: &Matrix, word: &Bits) -> Verdict
    requires { length word.now ≡ (code_of matrix.now).bits }
    ensures { IsParityVerdict matrix.now word.now result }
{
    if matrix.satisfied(word) {
        Verdict::Parity
    } else {
        Verdict::Broken
    }
}
