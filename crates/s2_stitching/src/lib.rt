//! `stitch`: receives a recording by the records of its pieces.
//!
//! `demod` of a piece writes a record of each frame that it decides ([`s2_records::Recorder`]). [`stitch_command`] receives the whole
//! recording, and takes the decision on a frame from its record. It decides frames without a record itself. If all records are true,
//! its packets, its report, its notes, its exit and the frames that its sinks take are those of `demod` over the recording. The
//! records of [`s2_records::Recorder`] are true, and have the seals of their frames ([`laws`]). It refuses a record with another seal,
//! such as one of another recording.
//!
//! ```text
//! let mut files = LinkFiles { rows, from: symbols, to: Destination::new(packets) };
//! let exit = stitch_command(alloc, setup, &options, true, seed, &mut files, records, copy, &mut sinks, &mut console, &mut notes);
//! ```
#![tactic(auto)]

mod fault;
pub mod laws;
mod parts;
mod reception;
mod stitch;

pub use stitch::stitch_command;
