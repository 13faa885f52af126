//! The sending end of a DVB-S2 link (EN 302 307-1, 5.1 to 5.5): transport stream packets in, and symbols out,
//! two bytes for I and two for Q.
//!
//! [`Transmitter::new`] allocates all the memory that will be needed, or returns the first of its refusals.
//! [`Transmitter::on_link`] does the same on a [`s2_link::Link`]; it fails only if it is out of memory.
//!
//! [`Transmitter::run`] reads packets to the reader's end. After `Ok` the writer has gained exactly the frames of
//! the data fields, in order. The baseband frame (BBFRAME) of each field is scrambled and encoded as a BCH word,
//! and that as a codeword (FECFRAME), which is sent as a physical layer frame (PLFRAME). A run fails exactly if
//! the packets are faulty, or if a read or a write failed. It leaves exactly the frames of the full fields of the
//! packets accepted before. Only after a failed write there may be fewer, and a part of the next one.
//! [`Transmitter::limit`] sets the most packets of a run. [`Transmitter::dummy_every`] sets after how many frames
//! a dummy frame is sent. A refused packet may tell that packets have 192 or 204 bytes: [`SendFault::hint`] says what
//! to do then.
//!
//! [`Transmitter::run_with`] also gives the codeword of each frame to a [`SendSink`], before the frame is written.
//!
//! A [`Sender`] is the transmitter without input and output. [`Sender::put`] takes bytes of the packets, in any pieces, up to
//! a complete frame. [`Sender::take`] makes the frame, and [`Sender::symbols`] and [`Sender::codeword`] lend it.
//! [`Sender::close`] ends the stream. What it gives depends on the bytes alone: [`laws::sender_gives`]. It is what a run
//! writes: [`laws::as_run`].
//!
//! The stages can be used by themselves. [`frame_bits_into`] writes the bits of a header and its data field.
//! [`Coder`] makes their codeword, and [`Modulator`] the bytes of a codeword's symbols. [`Framer`] does both.
//!
//! ```text
//! let setup = Setup { mode, number: 0, roll_off: 0 };
//! let mut transmitter = Transmitter::new(alloc, setup, &matrix)?;
//! let counts = transmitter.run(&mut reader, &mut writer)?;
//! ```
#![tactic(auto)]

mod bits;
mod coder;
mod framer;
mod intake;
pub mod laws;
mod modulator;
mod outcome;
mod part;
mod sender;
mod sending;
mod sinks;
mod transmitter;

pub use bits::frame_bits_into;
pub use coder::Coder;
pub use framer::Framer;
pub use intake::MAX_PACKETS;
pub use modulator::Modulator;
pub use outcome::{Counts, PacketSize, SendFault};
pub use sender::Sender;
pub use sinks::SendSink;
pub use transmitter::Transmitter;
