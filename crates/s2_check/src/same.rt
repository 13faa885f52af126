//! Whether a view is checked by the matrix for which it was lent.
ghost use Rattle.std.specs.Prelude.{◌≡◌, ◌↔◌, IsTrue};
ghost use Rattle.s2_check.specs.Views.{by_group};

use s2_matrix::Matrix;

/// Whether two matrices have the same shape and the same rows.
pub(crate) fn is_same(a: &Matrix, b: &Matrix) -> bool
    ensures { IsTrue result ↔ by_group a.now ≡ by_group b.now }
{
    if a.shape() != b.shape() {
        return false;
    }
    for group in 0..a.shape().groups() {
        if a.addresses(group) != b.addresses(group) {
            return false;
        }
    }
    true
}
