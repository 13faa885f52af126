//! Views of certificates by other rows than their own. If memory is refused once, the reading of a certificate reports that,
//! and the same call succeeds.
use super::again::{TOY, matrix_of, zeros};
use super::certificate_bytes::{LISTED, MOVED};
use super::values::are_soft;
use s2_bits::Bits;
use s2_check::{Answer, CertFault, CertView, Certificate, Refusal, check};
use s2_matrix::Matrix;
use std::alloc::Global;
use std::test::Fail;

/// A matrix that lends views, another one of the same rows, and one of other rows of the same shape.
type Matrices<'a> = [&'a Matrix; 3];

fn certificate(alloc: Global, bytes: &[u8]) -> Result<Certificate, CertFault> {
    match Certificate::read(alloc, bytes) {
        Err(CertFault::NoMemory) => Certificate::read(alloc, bytes),
        read => read,
    }
}

/// The checker's result for a view.
fn checked(matrix: &Matrix, view: &CertView<'_>) -> Answer {
    check(matrix, view)
}

/// Whether a view is a certificate of the rows for which it was lent, and none of the others.
fn is_of_its_rows(matrices: Matrices<'_>, view: &CertView<'_>) -> bool {
    checked(matrices[1], view) == Answer::Yes
        && checked(matrices[2], view) == Answer::No(Refusal::OtherShape)
}

/// Whether the view of a file is.
fn is_file_of_its_rows(alloc: Global, matrices: Matrices<'_>, file: &[u8]) -> bool {
    match certificate(alloc, file) {
        Ok(certificate) => match certificate.view(matrices[0]) {
            Some(view) => is_of_its_rows(matrices, &view),
            None => false,
        },
        Err(_) => false,
    }
}

/// Whether the view without a split is, of a word of zeros.
fn is_word_of_its_rows(matrices: Matrices<'_>, soft: &[i16], word: &Bits) -> bool {
    let bits = matrices[0].bits();
    soft.len() == bits
        && are_soft(soft)
        && word.len() == bits
        && is_of_its_rows(matrices, &CertView::unsplit(matrices[0], soft, word))
}

/// Whether the views are, of listed shares, of moves, and of no split.
fn are_of_their_rows(alloc: Global, matrices: Matrices<'_>, word: &Bits) -> bool {
    is_file_of_its_rows(alloc, matrices, LISTED)
        && is_file_of_its_rows(alloc, matrices, MOVED)
        && is_word_of_its_rows(matrices, &[1; 20], word)
}

#[test]
fn asks_again_where_memory_is_refused(rt: HostRuntime) -> Result<(), Fail> {
    let toy = matrix_of(rt.alloc(), TOY).ok_or("no matrix")?;
    let again = matrix_of(rt.alloc(), TOY).ok_or("no matrix")?;
    let other = matrix_of(rt.alloc(), (TOY.0, b"0 4 9\n0 1 2\n")).ok_or("no matrix")?;
    let word = zeros(rt.alloc(), 20)?;
    assert!(rt; are_of_their_rows(rt.alloc(), [&toy, &again, &other], &word));
    Ok(())
}
