//! The layers of a matrix: the rows that the checks of each read, and their rotations.
ghost use Rattle.std.specs.Prelude.{◌≡◌, ◌+◌, ◌*◌, ◌<◌, ◌≤◌, IfOk, length};
ghost use Rattle.s2_mode.specs.Limits.{max_bits};
ghost use Rattle.s2_minsum.specs.Layout.{entries_of, entry_count, first_row};
ghost use Rattle.s2_minsum.specs.Decoding.{AreFit, AreLayers};

use crate::entries::add_entries;
use crate::kernels::Circulant;
use s2_matrix::Matrix;
use std::alloc::{AllocError, Global};
use std::marker::Model;

/// The first place and the number of a layer's entries among those of all layers.
#[derive(Clone, Copy, Drop)]
struct Span {
    start: usize,
    count: usize,
}

/// The places of a layer's entries.
fn find_span(matrix: &Matrix, entries: &[Circulant], layer_starts: &[usize], r: usize) -> Span
    requires layers { AreLayers matrix.now entries.now layer_starts.now }
    requires layer { r < matrix.now.shape.q }
    ensures start { result.start ≡ first_row matrix.now r }
    ensures count { result.count ≡ entry_count matrix.now r }
    ensures entries { result.start + result.count ≤ length entries.now }
    ensures few { result.count ≤ max_bits }
{
    let (_matrix, _entries) = (matrix, entries);
    let start = layer_starts[r];
    Span {
        start,
        count: layer_starts[r + 1] - start,
    }
}

/// The entries of a layer among those of all layers.
fn entries_in<'l>(
    matrix: &Matrix,
    entries: &'l [Circulant],
    layer_starts: &[usize],
    r: usize,
) -> &'l [Circulant]
    requires layers { AreLayers matrix.now entries.now layer_starts.now }
    requires layer { r < matrix.now.shape.q }
    ensures { result.now ≡ entries_of matrix.now r }
{
    let span = find_span(matrix, entries, layer_starts, r);
    &entries[span.start..span.start + span.count]
}

/// The entries of all layers of a matrix, and the place of the first one of each; the last place is the end of all. To
/// contracts it is the address rows.
pub struct Layers<'a> {
    matrix: &'a Matrix,
    entries: Vec<Circulant>,
    layer_starts: Vec<usize>,
}

impl<'a> Drop for Layers<'a> {
    fn drop(self) {
        let Layers {
            matrix: _,
            entries: _,
            layer_starts: _,
        } = self;
    }
}

impl<'a> Model for Layers<'a> {
    ghost use Rattle.s2_rows.specs.Rows.{Rows};
    ghost use Rattle.s2_minsum.specs.Decoding.{AreLayers};

    ghost Value = { Rows };

    ghost view = { λ l. l.matrix.now };

    ghost invariant = { λ l. AreLayers l.matrix.now l.entries.items l.layer_starts.items };
}

impl<'a> Layers<'a> {
    /// The layers of a matrix. Returns `AllocError` only if memory is refused.
    pub fn of(alloc: Global, matrix: &'a Matrix) -> Result<Layers<'a>, AllocError>
        ensures rows { IfOk result (λ l. l ≡ matrix.now) }
        ensures fit { IfOk result (λ l. AreFit l) }
    {
        // This call's promise about the bits is a part of the one here.
        let _bits = matrix.bits();
        let shape = matrix.shape();
        let mut entries = Vec::new(alloc);
        let mut layer_starts = Vec::new(alloc);
        for r in 0..shape.q() {
            layer_starts.push(entries.len())?;
            add_entries(matrix, r, &mut entries)?;
        }
        layer_starts.push(entries.len())?;
        Ok(Layers {
            matrix,
            entries,
            layer_starts,
        })
    }

    /// The number of entries of the layers before a layer; of all layers, if r is their number.
    pub fn start(&self, r: usize) -> usize
        requires { r ≤ self.now.shape.q }
        ensures is { result ≡ first_row self.now r }
        ensures few { result ≤ max_bits * max_bits }
    {
        self.layer_starts[r]
    }

    /// The entries of a layer: one for each member of its last check, in their order.
    pub fn entries(&self, r: usize) -> &[Circulant]
        requires { r < self.now.shape.q }
        ensures are { result.now ≡ entries_of self.now r }
        ensures fit { AreFit self.now }
    {
        entries_in(self.matrix, &self.entries, &self.layer_starts, r)
    }
}
