//! The entries of each layer, which are circulants: the rows that its checks read, and their rotations.
ghost use Rattle.std.specs.Prelude.{◌≡◌, ◌++◌, ℕ, ◌<◌, ◌≤◌, OnOk};
ghost use Rattle.s2_mode.specs.Limits.{max_bits};
ghost use Rattle.s2_minsum.specs.Layout.{entries_of, entry_count};
ghost use Rattle.s2_minsum.specs.Decoding.{HasRoom, HasDecoderRoom};

use crate::kernels::Circulant;
use crate::layout::entry_of;
use s2_matrix::Matrix;
use std::alloc::{AllocError, Global};

/// Adds the entries of a layer: one for each member of its last check, in their order.
pub(crate) fn add_entries(
    matrix: &Matrix,
    r: usize,
    entries: &mut Vec<Circulant>,
) -> Result<(), AllocError>
    requires { r < matrix.now.shape.q }
    ensures { OnOk result (entries.new.items ≡ entries.old.items ++ entries_of matrix.now r) }
{
    let shape = matrix.shape();
    let members = matrix.members_at(r + (shape.group() - 1) * shape.q());
    for bit in members {
        entries.push(entry_of(shape, *bit as usize))?;
    }
    Ok(())
}

/// The number of entries of the largest layer.
fn max_entries(matrix: &Matrix) -> usize
    ensures most { (r : ℕ) → r < matrix.now.shape.q → entry_count matrix.now r ≤ result }
    ensures reached { (most : ℕ) → ((r : ℕ) → r < matrix.now.shape.q → entry_count matrix.now r ≤ most) → result ≤ most }
    ensures few { result ≤ max_bits }
{
    let shape = matrix.shape();
    let mut most = 0;
    for r in 0..shape.q() {
        let degree = matrix.degree(r + (shape.group() - 1) * shape.q());
        if degree > most {
            most = degree;
        }
    }
    most
}

/// The number of words that is enough for the work on each layer: a row for each of its entries, and three rows more.
/// Fewer are not enough for some layer.
pub fn scratch_len(matrix: &Matrix) -> usize
    ensures room { HasRoom matrix.now result }
    ensures least { (words : ℕ) → HasRoom matrix.now words → result ≤ words }
{
    (max_entries(matrix) + 3) * matrix.shape().group()
}

/// The number of words that is enough for a decoder's work on each layer: a row for each of its entries.
pub(crate) fn decoder_len(matrix: &Matrix) -> usize
    ensures { HasDecoderRoom matrix.now result }
{
    max_entries(matrix) * matrix.shape().group()
}
