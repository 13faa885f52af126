//! Rows with rising addresses, and their digest.
ghost use Rattle.std.specs.Prelude.{◌≡◌, ◌≤◌, ◌++◌, ℕ, List, length};
ghost use Rattle.sha2.specs.Hashers.{Holds256};
ghost use Rattle.sha2.specs.Sha256.{sha256};
ghost use Rattle.s2_rows.specs.Limits.{max_addresses};
ghost use Rattle.s2_rows.specs.RowTexts.{after_address, row_text, rows_text};
ghost use Rattle.s2_table.specs.Rising.{IsRisen, AreRisen};

use itoa::Buffer;
use s2_matrix::Matrix;
use s2_rows::Row;
use sha2::{Digest, Sha256};

/// A copy of a row.
fn copy_row(row: &[u32]) -> Row
    requires { length row.now ≤ max_addresses }
    ensures { result.items ≡ row.now }
{
    let mut copy = Row::new();
    for address in row {
        copy.push(*address);
    }
    copy
}

/// The addresses of a row, rising.
pub(crate) fn risen(row: &[u32]) -> Row
    requires { length row.now ≤ max_addresses }
    ensures { IsRisen row.now result.items }
{
    let mut risen = copy_row(row);
    risen.sort_unstable();
    risen
}

/// The byte after an address, before these other ones.
fn after_address(others: &[u32]) -> &'static [u8]
    ensures { result.now ≡ after_address others.now }
{
    if others.is_empty() { b"\n" } else { b" " }
}

/// Appends the line of a row to the hashed text.
pub(crate) fn hash_row(hasher: &mut Sha256, row: &[u32])
    ensures { (text : List ℕ) → Holds256 hasher.old text → Holds256 hasher.new (text ++ row_text row.now) }
{
    for (at, address) in row.iter().enumerate() {
        let mut digits = Buffer::new();
        hasher.update(digits.format(*address).as_bytes());
        hasher.update(after_address(&row[at + 1..]));
    }
}

/// The SHA-256 of the rows' text: one line for each row, its addresses rising, one space between them, and LF after the
/// last.
pub(crate) fn digest_of(matrix: &Matrix) -> [u8; 32]
    ensures { (rows : List (List ℕ)) × AreRisen matrix.now rows × (result ≡ sha256 (rows_text rows)) }
{
    let mut hasher = Sha256::new();
    for group in 0..matrix.shape().groups() {
        hash_row(&mut hasher, risen(matrix.addresses(group)).as_slice());
    }
    hasher.finalize()
}
