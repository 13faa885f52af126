//! The records of frames: what a receiver writes for each coded frame besides its packets, and a transmitter besides
//! its symbols; and `join`, which makes packets of a file of BBFRAMEs.
//!
//! Each is a [`s2_receive::Sink`] over a writer. [`Certificates`] writes certificate files, [`Values`] lines of soft
//! values (LLRs), [`Codewords`] decided bits, and [`Bbframes`] descrambled BBFRAMEs (EN 302 307-1, 5.1 and 5.2). The
//! bytes of a record are a function of the decision on the frame, and of whether symbols were skipped before it:
//! `specs/Records.antt`. A sink that took frames has written exactly their records, one after another
//! ([`laws::records`], [`laws::bbframes`]). After a failed write a part of the last record is written.
//!
//! [`Codewords`] and [`Bbframes`] are also [`s2_send::SendSink`]s: they write the codewords that a transmitter sends,
//! and their BBFRAMEs ([`laws::words`], [`laws::sent`]). A receiver that delivers such a frame writes the same bytes
//! ([`laws::both_ends`]). [`Labels`] and [`PlainSymbols`] are sinks of a transmitter only. They write the labels of the
//! interleaved bits (5.3.3), and their constellation points (5.4) before pilots and scrambling ([`laws::points`]).
//!
//! A [`Recorder`] writes the records of a piece of a recording, for [`s2_stitch::stitch_with`] ([`laws::recorded`]), and at last an end
//! record.
//!
//! A BBFRAME that was not delivered is replaced by zeros, so a file of them has whole BBFRAMEs ([`laws::whole`]). A line
//! of values is read as these values ([`laws::values`]).
//!
//! [`join_command`] reads such a file: the BBFRAMEs of consecutive frames of one mode, each with its header, not scrambled,
//! in Kbch / 8 bytes (EN 302 307-1, 5.1). It passes each to the joiner of `s2_bbframe`: its data field if its header is
//! accepted, else a gap. A frame of zeros has a refused header ([`laws::zeros`]). It writes the packets that the joiner
//! makes, frame by frame, and at the end the counts, in the words of a receiver's last line. An incomplete last frame is
//! reported as cut, and not joined. The packets are a function of the file's bytes: `packets_in` of `specs/Frames.antt`.
//! They are exactly the packets that the receiver wrote ([`laws::joined`]). One frame is in memory at a time.
//!
//! Of the sinks only `new` allocates, and `join` does before its output is truncated. A line, a word and a BBFRAME of the
//! mode each take one write.
//!
//! ```
//! let mut bbframes = Bbframes::new(alloc, mode, Counting::new(file))?;
//! let received = receive_with(&mut receiver, &mut reader, &mut bbframes, &mut packets, &mut report)?;
//! let exit = join_command(alloc, mode, &mut file, &mut packets, &mut console);
//! ```
#![tactic(auto)]

mod bbframes;
mod block;
mod certificates;
mod codewords;
mod frames;
mod join;
mod join_counts;
mod join_report;
mod joining;
mod labels;
pub mod laws;
mod limits;
mod plain_symbols;
mod recorder;
mod values;
mod words;

pub use bbframes::Bbframes;
pub use certificates::Certificates;
pub use codewords::Codewords;
pub use frames::frame_bytes;
pub use join::join_command;
pub use labels::Labels;
pub use limits::MAX_FRAMES;
pub use plain_symbols::PlainSymbols;
pub use recorder::Recorder;
pub use values::Values;
