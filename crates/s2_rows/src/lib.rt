//! Row files and value files: the address rows of an LDPC code (EN 302 307-1, 5.3.2) and the soft
//! values of a codeword, as text.
//!
//! An address row has the check addresses of a group's first bit, as in the standard's annexes B and C. A soft value is
//! an LLR (log-likelihood ratio), here an integer. `s2_matrix` builds a code's checks from [`Rows`].
//!
//! [`read_rows`] and [`read_values`] return what a text holds, or its first fault in reading order. They allocate
//! before they read, so `NoMemory` comes before every other fault. [`make_rows`] returns the rows that a shape, a
//! weight and a seed determine ([`laws::made_rows`]). [`write_rows`] writes their text, which is read back as the same
//! rows ([`laws::read_back`]).
//!
//! ```text
//! let shape = Shape::new(4, 2, 3).ok_or(..)?;
//! let rows = read_rows(alloc, b"0 4 8\n0 1 2\n", shape)?;
//! assert_eq!(rt; rows.row(1), [0, 1, 2].as_slice());
//! ```
#![tactic(auto)]

pub mod laws;
mod limits;
mod make;
mod numbers;
mod row_file;
mod rows;
mod text;
mod values;
mod write;

pub use limits::MAX_ADDRESSES;
pub use make::{MakeFault, make_rows};
pub use row_file::{RowFault, read_rows};
pub use rows::{Row, Rows};
pub use values::{ValueFault, read_values};
pub use write::write_rows;
