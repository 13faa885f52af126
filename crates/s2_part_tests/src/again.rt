//! Matrices of row files, and other calls that are made again after memory was refused.
ghost use Rattle.std.specs.Prelude.{◌≡◌, IfOk, length};

use s2_bits::Bits;
use s2_matrix::Matrix;
use s2_mode::Shape;
use s2_rows::{RowFault, Rows, read_rows};
use std::alloc::{AllocError, Global};

/// A code: its group, groups and q, and its row file.
pub(crate) type Code<'a> = ([usize; 3], &'a [u8]);

/// Bits 0 to 7 are information bits, bits 8 to 19 parity bits.
pub(crate) const TOY: Code<'static> = ([4, 2, 3], b"0 4 8\n0 1 2\n");

fn rows(alloc: Global, text: &[u8], shape: Shape) -> Result<Rows, RowFault> {
    match read_rows(alloc, text, shape) {
        Err(RowFault::NoMemory) => read_rows(alloc, text, shape),
        read => read,
    }
}

fn built(alloc: Global, rows: &Rows) -> Result<Matrix, AllocError> {
    match Matrix::build(alloc, rows) {
        Err(AllocError) => Matrix::build(alloc, rows),
        built => built,
    }
}

/// The matrix of a code.
pub(crate) fn matrix_of(alloc: Global, code: Code<'_>) -> Option<Matrix> {
    let (sizes, text) = code;
    let shape = Shape::new(sizes[0], sizes[1], sizes[2])?;
    match rows(alloc, text, shape) {
        Ok(rows) => built(alloc, &rows).ok(),
        Err(_) => None,
    }
}

/// Zeros, `len` of them.
pub(crate) fn zeros(alloc: Global, len: usize) -> Result<Bits, AllocError>
    ensures { IfOk result (λ b. length b ≡ len) }
{
    match Bits::zeroed(alloc, len) {
        Err(AllocError) => Bits::zeroed(alloc, len),
        made => made,
    }
}
