//! A receiver's run over a recording, by the decisions that runs over its pieces recorded.
//!
//! A [`Record`] has the decision on one frame: its position in the recording, the verdict, the rounds of min-sum, the decided bits,
//! and their certificate. [`record_into`] writes it, and [`read_record`] reads it again. Its seal ([`seal_of`]) is a sum of the
//! frame's soft values and of all that it says, so a record of another recording is refused. An end record has no verdict: it
//! says up to which position a piece was searched.
//!
//! A [`RecordSource`] reads records, and beside them a copy of the recording. It gives each record's frame with its symbols and
//! its decision ([`RecordedFrame`]): soft values, BCH decoding (EN 302 307-1, 5.3.1) and the BBHEADER (5.1) are computed again.
//! No decoder of the LDPC code is below this crate.
//!
//! A [`Recalling`] decider holds such a frame. If a frame has exactly its symbols, it takes the recorded decision. It leaves any
//! other frame to its own decider. [`stitch_with`] is the receiver's loop with such a decider, which gets the next recorded frame
//! before each step. So it does not matter how the recording was cut: a frame without a record costs one decision more.
//!
//! If all records are true, the run is that of the receiver that decides all frames by itself. A record is true if it has the
//! decision of the receiver's rule on the frame at its position (`specs/Frames.antt`).
//!
//! ```text
//! let mut source = RecordSource::new(alloc, &matrix, seed, mode, number, options, records, copy)?;
//! let mut receiver = Receiver::new(alloc, mode, turns, max_header_errors, resync, Recalling::new(decider), MAX_SYMBOLS)?;
//! let received = stitch_with(alloc, &mut receiver, &mut source, &mut symbols, &mut sink, &mut packets, &mut report)?;
//! ```
#![tactic(auto)]

mod copy;
mod fault;
mod frame;
pub mod laws;
mod limits;
mod made;
mod next;
mod read;
mod recalling;
mod record;
mod room;
mod run;
mod same;
mod seal;
mod source;
mod uncertified;
mod verdicts;
mod write;

pub use fault::{SourceFault, StitchFault};
pub use frame::RecordedFrame;
pub use limits::MAX_CERTIFICATE;
pub use read::{RecordFault, read_record};
pub use recalling::Recalling;
pub use record::Record;
pub use run::stitch_with;
pub use seal::seal_of;
pub use source::RecordSource;
pub use uncertified::Uncertified;
pub use write::record_into;
