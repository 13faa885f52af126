//! Whether rows are the standard's (EN 302 307-1, annexes B and C). This repository does not have these rows. It has
//! the SHA-256 of each code's rows, and recognizes them by it.
//!
//! The text of a row file is hashed, with the addresses of each row in rising order. [`table_command`] prints whether
//! rows have the digest of a mode's code, and if not, the first line that differs, by the digests of single rows.
//! [`read_noted`] reads rows for a command, and writes a note to its errors if they are not the standard's. If rows are
//! refused, [`finish_noted`] notes which rows the mode needs. [`is_standard`] tests the rows of a matrix.
//!
//! ```text
//! let matrix = read_noted(alloc, &mode, &mut file, quiet, &mut console.errors)?;
//! ```
#![tactic(auto)]

mod command;
mod first;
pub mod laws;
mod note;
mod rising;
mod row_sums;
mod standard;
mod sums;
mod wanted;

pub use command::table_command;
pub use note::{read_noted, write_note};
pub use standard::is_standard;
pub use wanted::{finish_noted, report_noted};
