//! The matrix by groups of bits and by layers of checks (EN 302 307-1, 5.3.2): layer r has the
//! checks r + q c, one for each lane c of a group.
ghost use Rattle.std.specs.Prelude.{◌≡◌, ◌/◌, ◌%◌, ◌<◌, ◌≤◌, All, length, get_or};
ghost use Rattle.s2_mode.specs.Shape.{information_bits};
ghost use Rattle.s2_mode.specs.Limits.{max_bits};
ghost use Rattle.s2_rows.specs.Rows.{row_of};
ghost use Rattle.s2_rows.specs.Limits.{max_addresses};
ghost use Rattle.s2_matrix.specs.Layers.{layer_places, layer_entries};

use crate::matrix::Matrix;

/// An address of a group's row: the layer of checks that it meets, and the number of lanes by which the group is
/// rotated there. It is a circulant of the matrix, by its group.
#[derive(Clone, Copy, Debug, PartialEq, Eq)]
pub struct GroupEntry {
    /// x mod q for the address x.
    pub layer: usize,
    /// x div q.
    pub shift: usize,
}

/// A group of information bits that a layer of checks meets, and the number of lanes by which it is rotated there. The
/// check in lane c has the group's bit (c + group size - shift) mod group size. It is a circulant of the matrix, by its
/// layer.
#[derive(Clone, Copy, Debug, PartialEq, Eq)]
pub struct LayerEntry {
    /// The group, counted from 0.
    pub group: usize,
    /// The shift, below the group's size.
    pub shift: usize,
}

impl Matrix {
    /// The number of addresses of a group's row: at most 24. Groups count from 0.
    pub fn group_len(&self, group: usize) -> usize
        requires { group < self.now.shape.groups }
        ensures is { result ≡ length (row_of self.now group) }
        ensures few { result ≤ max_addresses }
    {
        self.addresses(group).len()
    }

    /// The address at a place of a group's row, counted from 0 in the order of the row file.
    pub fn group_entry(&self, group: usize, at: usize) -> GroupEntry
        requires group { group < self.now.shape.groups }
        requires at { at < length (row_of self.now group) }
        ensures layer { result.layer ≡ get_or (row_of self.now group) at 0 % self.now.shape.q }
        ensures shift { result.shift ≡ get_or (row_of self.now group) at 0 / self.now.shape.q }
        ensures layer_below { result.layer < self.now.shape.q }
        ensures shift_below { result.shift < self.now.shape.group }
    {
        let q = self.shape().q();
        let address = self.addresses(group)[at] as usize;
        GroupEntry {
            layer: address % q,
            shift: address / q,
        }
    }

    /// The places that a layer meets, g * group size + s for group g and shift s, rising.
    fn places_of(&self, layer: usize) -> &[u32]
        requires { layer < self.now.shape.q }
        ensures are { result.now ≡ layer_places self.now layer }
        ensures below { All (λ p. p < information_bits self.now.shape) result.now }
        ensures short { length result.now ≤ max_bits }
    {
        self.layers.row(layer)
    }

    /// The number of entries of a layer, which is the number of information bits of each of its checks. Layers count
    /// from 0 to q - 1.
    pub fn layer_len(&self, layer: usize) -> usize
        requires { layer < self.now.shape.q }
        ensures { result ≡ length (layer_entries self.now layer) }
    {
        self.places_of(layer).len()
    }

    /// The entry of a layer at a place below its length, counted from 0: by rising group, then rising
    /// shift.
    pub fn layer_entry(&self, layer: usize, at: usize) -> LayerEntry
        requires layer { layer < self.now.shape.q }
        requires at { at < length (layer_entries self.now layer) }
        ensures is { result ≡ get_or (layer_entries self.now layer) at result }
        ensures group_below { result.group < self.now.shape.groups }
        ensures shift_below { result.shift < self.now.shape.group }
    {
        let group = self.shape().group();
        let place = self.places_of(layer)[at] as usize;
        LayerEntry {
            group: place / group,
            shift: place % group,
        }
    }
}
