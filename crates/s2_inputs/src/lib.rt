//! The files that commands read into memory: the bytes of any file, and the matrix of a row file.
//!
//! [`read_bytes`] reads a file of at most [`MAX_BYTES`] to its end. [`read_matrix`] reads a row file so, and builds the
//! matrix of its rows; [`matrix_of`] does this for a row file that is in memory. A refusal is the fault that the command
//! reports. No other fault comes without a failed read.
//!
//! ```text
//! let matrix = read_matrix(alloc, &mut rows, mode.shape())?;
//! ```
#![tactic(auto)]

mod reading;

pub use reading::{MAX_BYTES, matrix_of, read_bytes, read_matrix};
