//! The one member that a layer's first check can lack.
ghost use Rattle.std.specs.Prelude.{◌≡◌, ℕ, ◌≤◌, ◌<◌, ◌+◌, ◌*◌, ◌==◌, ◌&&◌, if◌then◌else◌, length, slice_index_or};
ghost use Rattle.s2_mode.specs.Limits.{max_group};
ghost use Rattle.s2_minsum.specs.Rows.{entry_at, is_lacking};

use crate::kernels::Circulant;

/// Whether an entry is the one that the first check lacks.
fn is_absent(entry: Circulant, last: usize) -> bool
    ensures { result ≡ ((entry.row == last) && (entry.shift == 1)) }
{
    entry.row as usize == last && entry.shift == 1
}

/// Writes a value in lane 0 of the row of the entry that the first check lacks, if it lacks one. Each entry of the
/// layer has a row of `n` lanes, one a check. `last` is the result of [`crate::last_row`].
pub fn mask_lacking<T: Copy>(entries: &[Circulant], n: usize, last: usize, rows: &mut [T], value: T)
    requires some { 1 ≤ n }
    requires few { n ≤ max_group }
    requires long { length rows.old ≡ length entries.now * n }
    ensures { (e c : ℕ) → e < length entries.now → c < n → slice_index_or rows.new (e * n + c) value
        ≡ (if is_lacking last (entry_at entries.now e) c then value else slice_index_or rows.old (e * n + c) value) }
{
    for e in 0..entries.len() {
        let entry = entries[e];
        if is_absent(entry, last) {
            rows[e * n] = value;
        }
    }
}
