//! A maker, if memory may be refused once: it reports that, and the same call then succeeds.
ghost use Rattle.std.specs.Prelude.{◌≡◌, IfOk};

use super::again::{matrix_of, zeros};
use super::values::are_soft;
use s2_matrix::Matrix;
use s2_split::Maker;
use std::alloc::{AllocError, Global};
use std::test::Fail;

fn maker<'a>(alloc: Global, matrix: &'a Matrix) -> Result<Maker<'a>, AllocError>
    ensures { IfOk result (λ m. m.rows ≡ matrix.now) }
{
    match Maker::new(alloc, matrix) {
        Err(AllocError) => Maker::new(alloc, matrix),
        made => made,
    }
}

/// Whether a split is made for these values and a word of zeros.
fn is_made_by(alloc: Global, matrix: &Matrix, soft: &[i16; 2]) -> Result<bool, Fail> {
    let word = zeros(alloc, 2)?;
    let mut maker = maker(alloc, matrix)?;
    Ok(matrix.bits() == 2 && are_soft(soft) && maker.make(soft, &word).is_some())
}

/// Whether a split is made for these values of a repeated bit and a word of zeros.
fn is_made(alloc: Global, soft: &[i16; 2]) -> Result<bool, Fail> {
    let matrix = matrix_of(alloc, ([1, 1, 1], b"0\n")).ok_or("no matrix")?;
    is_made_by(alloc, &matrix, soft)
}

#[test]
fn asks_again_where_memory_is_refused(rt: HostRuntime) -> Result<(), Fail> {
    assert!(rt; !is_made(rt.alloc(), &[-5, 3])?);
    assert!(rt; is_made(rt.alloc(), &[-5, 5])?);
    Ok(())
}
