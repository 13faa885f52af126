//! The encoder.
ghost use Rattle.std.specs.Prelude.{◌≡◌, length};
ghost use Rattle.s2_mode.specs.Shape.{information_bits};
ghost use Rattle.s2_matrix.specs.Code.{code_of};
ghost use Rattle.s2_ldpc.specs.Encoding.{IsCodewordOf};

use s2_bits::Bits;
use s2_matrix::Matrix;

/// Writes a codeword to a slice.
fn encode(matrix: &Matrix, info: &[bool], codeword: &mut [bool])
    requires info { length info.now ≡ information_bits matrix.now.shape }
    requires codeword { length codeword.old ≡ (code_of matrix.now).bits }
    ensures { IsCodewordOf (code_of matrix.now) info.now codeword.new }
{
    let (front, parities) = codeword.split_at_mut(info.len());
    front.copy_from_slice(info);
    matrix.parities_into(info, parities);
}

/// Writes the codeword that begins with the information bits (EN 302 307-1, 5.3.2).
///
/// `info` has the k information bits of the matrix's shape, group * groups of them. `codeword` has
/// n bits, group * (groups + q): for the standard's codes 64800 or 16200. All are written, the n - k
/// parity bits after the information bits.
pub fn encode_into(matrix: &Matrix, info: &Bits, codeword: &mut Bits)
    requires info { length info.now ≡ information_bits matrix.now.shape }
    requires codeword { length codeword.old ≡ (code_of matrix.now).bits }
    ensures { IsCodewordOf (code_of matrix.now) info.now codeword.new }
{
    encode(matrix, info.truths(), codeword.truths_mut());
}
