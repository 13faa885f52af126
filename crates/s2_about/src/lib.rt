//! The record of `--about`: how a report was made, and from which files.
//!
//! A [`Hashed`] reader or writer passes everything through, and adds the bytes to a [`SharedSum`]: their SHA-256 and their
//! number. [`FileSums`] has the sums of a command's files. The record is a JSON object with one `"key": value` per line.
//! [`push_fields`] and [`push_sum`] append lines to what [`begin_record`] made. [`first_difference`] compares the lines of an
//! audit with those of a record.
//!
//! The lines are plain code. The contracts say that a hashed reader or writer is the one that it holds, and that a sum is
//! that of the bytes that passed.
//!
//! ```text
//! let sums = FileSums::new();
//! let mut symbols = Hashed::new(symbols, Some(&sums.from));
//! push_sum(alloc, &mut text, "symbols", sums.from.take())?;
//! ```
#![tactic(auto)]

mod difference;
mod fields;
mod file_sum;
mod hashed;
mod text;

pub use difference::{Difference, first_difference};
pub use fields::{
    Field, Value, decoding_fields, demodulation_fields, frame_fields, link_fields, report_fields,
};
pub use file_sum::FileSum;
pub use hashed::{FileSums, Hashed, SharedSum};
pub use text::{begin_record, end_record, push_fields, push_sum};
