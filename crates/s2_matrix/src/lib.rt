//! The parity checks of a code (EN 302 307-1, 5.3.2): which bits each check adds up, which checks
//! each bit is in, the parity bits of information bits, and the parity test.
//!
//! A [`Matrix`] is built from accepted address rows, and in contracts it is those rows. Bits 0 to k - 1 are the
//! information bits, bits k to n - 1 the parity bits. The members of a check and the checks of a bit are in rising
//! order. Edges of the Tanner graph, the pairs of a check and a member, are numbered check by check.
//!
//! Layer r has the checks r + q c, one for each lane c of a group. A layer's entries are the circulants of the
//! quasi-cyclic matrix: each is a group of bits and a shift, by which the bits are rotated. Only [`Matrix::build`]
//! allocates. [`laws::members`] says that the definition of a member is that of the standard, and [`laws::layers`] that
//! the layers show the same members.
//!
//! ```
//! let rows = read_rows(alloc, b"0 4 8\n0 1 2\n", shape)?;
//! let matrix = Matrix::build(alloc, &rows)?;
//! assert_eq!(matrix.members_at(1), [3, 4, 8, 9]);
//! assert!(matrix.satisfied(&Bits::zeroed(alloc, matrix.bits())?));
//! ```
#![tactic(auto)]

mod accumulator;
mod build;
mod counting_sort;
mod jagged_list;
pub mod laws;
mod layers;
mod lists;
mod matrix;
mod parity;
mod planes;
mod transpose;
mod views;

pub use matrix::Matrix;
pub use views::{GroupEntry, LayerEntry};
