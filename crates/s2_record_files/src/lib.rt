//! The files of records of a command on a link: opened, each with the sink that writes to it, and finished.
//!
//! [`open_records`] opens those that are given, after the other files of the command. The command gives frames to their sinks.
//! [`end_records`] writes the end record of a piece, and [`finish_command`] truncates the files to which nothing was written.
//!
//! This is plain code: `s2_records` has the contracts of the sinks. The contracts here count failed calls, so that a fault can still
//! be reported.
//!
//! ```text
//! let mut records = open_records(opener, alloc, mode, RecordNames::Received(words))?;
//! let exit = demod_command(alloc, setup, options, &mut files, &mut records.received, console, notes);
//! finish_command(exit, begun, records)?;
//! ```
#![tactic(auto)]

mod finishing;
mod opening;
mod record_files;
mod sinks;

pub use finishing::{end_records, finish_command};
pub use opening::{RecordNames, open_records};
pub use record_files::{ReceivedRecords, RecordFiles, SentRecords};
pub use sinks::open_file;
