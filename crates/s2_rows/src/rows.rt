//! Address rows.
ghost use Rattle.std.specs.Prelude.{◌≡◌, ◌<◌, ◌≤◌, length, map};
ghost use Rattle.s2_mode.specs.Shape.{check_count};
ghost use Rattle.s2_rows.specs.Limits.{max_addresses};
ghost use Rattle.s2_rows.specs.Rows.{AreAddresses, IsRows, row_of, rows_value};

use crate::limits::MAX_ADDRESSES;
use arrayvec::ArrayVec;
use s2_mode::Shape;
use std::marker::Model;

/// The addresses of one row.
pub type Row = ArrayVec<u32, MAX_ADDRESSES>;

/// A shape, and for each of its groups of information bits the addresses of the group's first bit
/// (EN 302 307-1, 5.3.2): one to 24, each once, all of them below n - k.
pub struct Rows {
    shape: Shape,
    rows: Vec<Row>,
}

impl Drop for Rows {
    fn drop(self) {
        let Rows { shape: _, rows: _ } = self;
    }
}

impl Model for Rows {
    ghost use Rattle.std.specs.Prelude.{map};
    ghost use Rattle.s2_rows.specs.Rows.{Rows as RowsValue, IsRows, rows_value};

    ghost Value = { RowsValue };

    ghost view = { λ r. rows_value r.shape (map (λ row. row.items) r.rows.items) };

    ghost invariant = { λ r. IsRows (rows_value r.shape (map (λ row. row.items) r.rows.items)) };
}

impl Rows {
    /// The rows of a shape, when they are known to be valid.
    pub(crate) fn from_parts(shape: Shape, rows: Vec<Row>) -> Rows
        requires { IsRows (rows_value shape (map (λ row. row.items) rows.items)) }
        ensures { result ≡ rows_value shape (map (λ row. row.items) rows.items) }
    {
        Rows { shape, rows }
    }

    /// The shape whose rows these are.
    pub fn shape(&self) -> Shape
        ensures is { result ≡ self.now.shape }
        ensures valid { IsRows self.now }
    {
        self.shape
    }

    /// The addresses of a group's first bit, in the order of the file.
    pub fn row(&self, i: usize) -> &[u32]
        requires { i < self.now.shape.groups }
        ensures are { result.now ≡ row_of self.now i }
        ensures addresses { AreAddresses (check_count self.now.shape) result.now }
        ensures short { length result.now ≤ max_addresses }
    {
        self.rows[i].as_slice()
    }
}
