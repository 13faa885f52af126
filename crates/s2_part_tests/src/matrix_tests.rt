//! A small code, check by check. If memory is refused once, building its matrix reports that, and the same call succeeds.
use super::again::{TOY, matrix_of};
use s2_matrix::Matrix;
use std::test::Fail;

const CHECKS: [&[u32]; 12] = [
    &[0, 4, 8],
    &[3, 4, 8, 9],
    &[2, 4, 9, 10],
    &[1, 5, 10, 11],
    &[0, 5, 11, 12],
    &[3, 5, 12, 13],
    &[2, 6, 13, 14],
    &[1, 6, 14, 15],
    &[0, 6, 15, 16],
    &[3, 7, 16, 17],
    &[2, 7, 17, 18],
    &[1, 7, 18, 19],
];

/// Whether a check has these members, by each call, and its edges begin with this one.
fn is_check(matrix: &Matrix, j: usize, check: &[u32], edge: usize) -> bool {
    if j >= matrix.check_count() || matrix.members_at(j) != check {
        return false;
    }
    for at in 0..matrix.degree(j) {
        let own = edge.wrapping_add(at);
        if own >= matrix.edges() || matrix.check_of_edge(own) != j {
            return false;
        }
        if check.get(at) != Some(&(matrix.members(j, at) as u32)) {
            return false;
        }
    }
    matrix.degree(j) == check.len() && matrix.first_edge(j) == edge
}

/// Whether a matrix has these checks.
fn is_built(matrix: &Matrix) -> bool {
    let mut edge = 0usize;
    for j in 0..CHECKS.len() {
        if !is_check(matrix, j, CHECKS[j], edge) {
            return false;
        }
        edge = edge.wrapping_add(CHECKS[j].len());
    }
    let shape = matrix.shape();
    [matrix.bits(), matrix.check_count(), matrix.edges()] == [20, 12, 47]
        && [shape.k(), shape.n()] == [8, 20]
}

#[test]
fn asks_again_where_memory_is_refused(rt: HostRuntime) -> Result<(), Fail> {
    let matrix = matrix_of(rt.alloc(), TOY).ok_or("no matrix")?;
    assert!(rt; is_built(&matrix));
    Ok(())
}
