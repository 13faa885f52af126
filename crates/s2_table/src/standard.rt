//! Rows compared with a digest.
ghost use Rattle.std.specs.Prelude.{◌≡◌};
ghost use Rattle.s2_table.specs.Sums.{standard_sum};
ghost use Rattle.s2_table.specs.Rising.{HasSum};

use crate::rising::digest_of;
use crate::sums::sum_of;
use s2_matrix::Matrix;
use s2_mode::Mode;

/// Whether the rows' text with rising addresses has this SHA-256, in 64 small hexadecimal digits.
pub(crate) fn has_sum(matrix: &Matrix, sum: &str) -> bool
    ensures { HasSum matrix.now sum.now result }
{
    let digest = digest_of(matrix);
    let mut text = [0u8; 64];
    hex::encode_to_slice(digest.as_slice(), &mut text).unwrap();
    text.as_slice() == sum.as_bytes()
}

/// Whether rows are the standard's for the code of a mode, whatever the order within each row.
pub fn is_standard(mode: &Mode, matrix: &Matrix) -> bool
    ensures { HasSum matrix.now (standard_sum mode.now) result }
{
    has_sum(matrix, sum_of(mode))
}
