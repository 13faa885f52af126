//! The matrix and its reads.
ghost use Rattle.std.specs.Prelude.{◌≡◌, ℕ, ◌+◌, ◌<◌, ◌≤◌, All, IfOk, length, slice_index};
ghost use Rattle.s2_mode.specs.Shape.{IsShape, check_count};
ghost use Rattle.s2_mode.specs.Limits.{max_bits};
ghost use Rattle.s2_rows.specs.Limits.{max_addresses};
ghost use Rattle.s2_rows.specs.Rows.{AreAddresses, row_of};
ghost use Rattle.s2_matrix.specs.Code.{code_of, members, checks_of, edges_at, first_edge};
ghost use Rattle.s2_matrix.specs.Limits.{max_edges};

use crate::jagged_list::JaggedList;
use crate::{layers, lists};
use s2_mode::Shape;
use s2_rows::{Row, Rows};
use std::alloc::{AllocError, Global};
use std::marker::Model;

/// The parity checks that accepted rows define (EN 302 307-1, 5.3.2), in flat lists. In contracts it
/// is the rows.
pub struct Matrix {
    shape: Shape,
    rows: Vec<Row>,
    members: JaggedList,
    edges: JaggedList,
    checks: JaggedList,
    pub(crate) layers: JaggedList,
}

impl Drop for Matrix {
    fn drop(self) {
        let Matrix {
            shape: _,
            rows: _,
            members: _,
            edges: _,
            checks: _,
            layers: _,
        } = self;
    }
}

impl Model for Matrix {
    ghost use Rattle.std.specs.Prelude.{map};
    ghost use Rattle.s2_rows.specs.Rows.{Rows as RowsValue};
    ghost use Rattle.s2_matrix.specs.Edges.{IsMatrix};

    ghost Value = { RowsValue };

    ghost view = { λ m. record { shape = m.shape; rows = map (λ row. row.items) m.rows.items } };

    ghost invariant = { λ m. IsMatrix
        (record { shape = m.shape; rows = map (λ row. row.items) m.rows.items }) m.members m.edges m.checks m.layers };
}

impl Matrix {
    /// The matrix of these rows: their n - k checks over n bits. `AllocError` only if memory is
    /// refused; then no memory is held.
    pub fn build(alloc: Global, rows: &Rows) -> Result<Matrix, AllocError>
        ensures { IfOk result (λ m. m ≡ rows.now) }
    {
        let copy = lists::copy_rows(alloc, rows)?;
        let members = lists::members(alloc, rows)?;
        let edges = lists::edges(alloc, rows, &members)?;
        let checks = lists::checks(alloc, rows, &members)?;
        let layers = layers::layers(alloc, rows)?;
        Ok(Matrix {
            shape: rows.shape(),
            rows: copy,
            members,
            edges,
            checks,
            layers,
        })
    }

    /// The shape whose checks these are.
    pub fn shape(&self) -> Shape
        ensures is { result ≡ self.now.shape }
        ensures valid { IsShape self.now.shape }
    {
        self.shape
    }

    /// The addresses of a group's first bit, in the order of the row file: 1 to 24 of them, each
    /// below n - k. Groups count from 0.
    pub fn addresses(&self, group: usize) -> &[u32]
        requires { group < self.now.shape.groups }
        ensures are { result.now ≡ row_of self.now group }
        ensures addresses { AreAddresses (check_count self.now.shape) result.now }
        ensures short { length result.now ≤ max_addresses }
    {
        self.rows[group].as_slice()
    }

    /// n, how many bits a codeword has: at most 64800. Each is in at most 24 checks.
    pub fn bits(&self) -> usize
        ensures is { result ≡ (code_of self.now).bits }
        ensures few { result ≤ max_bits }
        ensures few_checks { (i : ℕ) → length (checks_of (code_of self.now) i) ≤ max_addresses }
    {
        self.edges.len()
    }

    /// n - k, the number of checks, which is that of the parity bits.
    pub fn check_count(&self) -> usize
        ensures is { result ≡ (code_of self.now).checks }
        ensures few { result ≤ max_bits }
    {
        self.members.len()
    }

    /// How many edges there are, the pairs of a check and a member: at most 1,555,200.
    pub fn edges(&self) -> usize
        ensures is { result ≡ first_edge (code_of self.now) (code_of self.now).checks }
        ensures few { result ≤ max_edges }
    {
        self.members.all().len()
    }

    /// The number of the first edge of this check: how many edges the checks before it have. Checks
    /// and edges count from 0; for n - k it is the number of all edges.
    pub fn first_edge(&self, check: usize) -> usize
        requires { check ≤ (code_of self.now).checks }
        ensures { result ≡ first_edge (code_of self.now) check }
    {
        self.members.first(check)
    }

    /// The check of an edge, by halving. Checks and edges count from 0.
    pub fn check_of_edge(&self, edge: usize) -> usize
        requires { edge < first_edge (code_of self.now) (code_of self.now).checks }
        ensures below { result < (code_of self.now).checks }
        ensures from { first_edge (code_of self.now) result ≤ edge }
        ensures before { edge < first_edge (code_of self.now) (result + 1) }
    {
        let mut low = 0usize;
        let mut high = self.check_count();
        while high - low > 1 {
            let middle = low + (high - low) / 2;
            if self.first_edge(middle) <= edge {
                low = middle;
            } else {
                high = middle;
            }
        }
        low
    }

    /// The members of a check: the positions in a codeword, from 0 to n - 1, of the bits that it adds
    /// up, rising. Checks count from 0 to n - k - 1.
    pub fn members_at(&self, check: usize) -> &[u32]
        requires { check < (code_of self.now).checks }
        ensures are { result.now ≡ members (code_of self.now) check }
        ensures below { All (λ i. i < (code_of self.now).bits) result.now }
        ensures short { length result.now ≤ max_bits }
        ensures within { first_edge (code_of self.now) check + length result.now
            ≤ first_edge (code_of self.now) (code_of self.now).checks }
    {
        self.members.row(check)
    }

    /// The numbers of the edges of a bit, in the order of its checks: at most 24. Bits count from 0
    /// to n - 1.
    pub fn edges_at(&self, bit: usize) -> &[u32]
        requires { bit < (code_of self.now).bits }
        ensures are { result.now ≡ edges_at (code_of self.now) bit }
        ensures below { All (λ e. e < first_edge (code_of self.now) (code_of self.now).checks) result.now }
        ensures few { length result.now ≤ max_addresses }
    {
        self.edges.row(bit)
    }

    /// The checks of a bit, from 0 to n - k - 1, rising: at most 24. Bits count from 0 to n - 1.
    pub fn checks_at(&self, bit: usize) -> &[u32]
        requires { bit < (code_of self.now).bits }
        ensures are { result.now ≡ checks_of (code_of self.now) bit }
        ensures below { All (λ j. j < (code_of self.now).checks) result.now }
        ensures few { length result.now ≤ max_addresses }
    {
        self.checks.row(bit)
    }

    /// How many members a check has.
    pub fn degree(&self, check: usize) -> usize
        requires { check < (code_of self.now).checks }
        ensures is { result ≡ length (members (code_of self.now) check) }
        ensures short { result ≤ max_bits }
        ensures within { first_edge (code_of self.now) check + result
            ≤ first_edge (code_of self.now) (code_of self.now).checks }
    {
        self.members_at(check).len()
    }

    /// The member of a check at a place below its degree, counted from 0: a position in a codeword.
    pub fn members(&self, check: usize, at: usize) -> usize
        requires check { check < (code_of self.now).checks }
        requires at { at < length (members (code_of self.now) check) }
        ensures is { result ≡ slice_index (members (code_of self.now) check) at }
        ensures below { result < (code_of self.now).bits }
    {
        self.members_at(check)[at] as usize
    }

    /// How many checks a bit has: at most 24.
    pub fn bit_degree(&self, bit: usize) -> usize
        requires { bit < (code_of self.now).bits }
        ensures is { result ≡ length (checks_of (code_of self.now) bit) }
        ensures few { result ≤ max_addresses }
    {
        self.checks_at(bit).len()
    }

    /// The check of a bit at a place below its degree, counted from 0.
    pub fn checks_of(&self, bit: usize, at: usize) -> usize
        requires bit { bit < (code_of self.now).bits }
        requires at { at < length (checks_of (code_of self.now) bit) }
        ensures is { result ≡ slice_index (checks_of (code_of self.now) bit) at }
        ensures below { result < (code_of self.now).checks }
    {
        self.checks_at(bit)[at] as usize
    }
}
