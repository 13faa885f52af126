//! The first row that is not the standard's.
ghost use Rattle.std.specs.Prelude.{◌≡◌, ◌≤◌, ◌<◌, [], get_or, map, length};
ghost use Rattle.s2_rows.specs.Limits.{max_addresses};
ghost use Rattle.s2_table.specs.RowSums.{IsRowSum, FirstOther, standard_row_sums};

use crate::rising::{hash_row, risen};
use crate::row_sums::{NORMAL_ROWS, SHORT_ROWS};
use s2_matrix::Matrix;
use s2_mode::Mode;
use sha2::{Digest, Sha256};

/// The digest of a row: the first four bytes of the SHA-256 of its line, with rising addresses.
fn row_sum(row: &[u32]) -> u32
    requires { length row.now ≤ max_addresses }
    ensures { IsRowSum row.now result }
{
    let mut hasher = Sha256::new();
    hash_row(&mut hasher, risen(row).as_slice());
    let digest = hasher.finalize();
    u32::from_be_bytes([digest[0], digest[1], digest[2], digest[3]])
}

/// The digest at a place, 0 after the last.
fn sum_at(sums: &[u32], at: usize) -> u32
    ensures { result ≡ get_or sums.now at 0 }
{
    match sums.get(at) {
        Some(sum) => *sum,
        None => 0,
    }
}

/// The line of the first row that has another digest than the one at its place, counted from 1.
pub(crate) fn first_other(matrix: &Matrix, sums: &[u32]) -> Option<u64>
    ensures { FirstOther matrix.now sums.now result }
{
    'rows: for group in 0..matrix.shape().groups() {
        if row_sum(matrix.addresses(group)) != sum_at(sums, group) {
            return Some(group as u64 + 1);
        }
    }
    None
}

/// A table of digests.
fn sums_at(tables: &[&'static [u32]; 11], at: usize) -> &'static [u32]
    requires { at < 11 }
    ensures { result.now ≡ get_or (map (λ t. t.now) tables.now) at [] }
{
    tables[at]
}

/// The digests of the standard's rows for the code of a mode.
#[tactic(auto, unfolding(crate::specs::RowSums::standard_row_sums))]
fn row_sums_of(mode: &Mode) -> &'static [u32]
    ensures { result.now ≡ standard_row_sums mode.now }
{
    let place = mode.rate_index();
    if mode.is_short() {
        sums_at(&SHORT_ROWS, place)
    } else {
        sums_at(&NORMAL_ROWS, place)
    }
}

/// The line of the first row that is not the standard's for the code of a mode, whatever the order within each row.
pub(crate) fn first_other_row(mode: &Mode, matrix: &Matrix) -> Option<u64>
    ensures { FirstOther matrix.now (standard_row_sums mode.now) result }
{
    first_other(matrix, row_sums_of(mode))
}
