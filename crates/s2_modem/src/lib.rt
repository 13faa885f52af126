//! Both ends of a DVB-S2 link (EN 302 307-1, 5.1 to 5.5). The transmitter takes transport stream packets and writes the
//! symbols of PLFRAMEs, two bytes for I and two for Q. The receiver takes symbols and writes packets. They put together
//! the stages of the crates below. Soft values are LLRs in fixed point; rounds are iterations of min-sum; settling is
//! dual coordinate ascent by layers.
//!
//! [`Transmitter::new`] and [`Receiver::new`] allocate all memory that will be needed, or return the first of
//! their refusals. [`Transmitter::on_link`] and [`Receiver::on_link`] do the same on a [`Link`], which none
//! refuses. [`Transmitter::run`] reads packets to the reader's end. `Ok` means that the writer has gained
//! exactly the frames of the data stream's fields, in order, and a dummy frame after each for which
//! [`Transmitter::dummy_every`] wants one. A refusal comes exactly if the packets give cause for it, or a read
//! or a write failed. It leaves exactly the frames of the full fields of the packets accepted before; only a
//! failed write may leave fewer, and a part of the next frame or dummy frame. [`Transmitter::limit`] and
//! [`Receiver::limit`] lower the limits.
//!
//! [`Receiver::advance`] takes the bytes that [`Receiver::room`] wants. They end at the end of the next frame. A frame
//! begins at the first header that is not before the last frame's end and in no dummy frame. Right after a frame or a
//! dummy frame, the [`Tuning`] sets the number of wrong bits that a header may have. The dummy frames of any modulator are
//! left out, and packets are joined across them. Then the decision on the frame can be read. It is exactly that of the
//! definitions for its symbols: soft values, decided bits with verdict and certificate, the message of the nearest BCH
//! word, and its header. So are the packets that the joiner makes of its data field. [`Receiver::next`] also reads and
//! writes. Soft values are divided by [`DEFAULT_DIVISOR`], or by the divisor of the [`Tuning`] of
//! [`Receiver::on_link`]. If the tuning asks for figures, each report has those of its frame ([`s2_report::Figures`]),
//! and only then memory is taken for them. Frames that are rotated by quarter turns are received only if it says so: they
//! are found, and rotated back before anything is decided. If it has the equalizer, each symbol is then divided by the
//! gain of the channel ([`s2_equalize::Equalizer`]).
//!
//! For each frame [`laws::frames`] holds. Bits that are called sole or most likely satisfy every check, and no bits that
//! do cost less. If they are called sole, all other bits that do cost more. If the search is at a frame that was sent, and
//! it came without noise or scattered, it is delivered, certified, with no bit changed. If at most t bits of its BCH word
//! are wrong, exactly these are corrected. [`Receiver::run`] continues to the end of the symbols, and [`demodulate`] does
//! it for a whole stream in memory. [`Receiver::run_with`] also gives each frame to a [`s2_receive::Sink`], before its
//! packets are written.
//!
//! The n decided bits of a frame are called its word, whether they are a codeword or not. Their first Nbch bits are the
//! received word. The word that BCH decoding finds for it is a BCH word.
//!
//! ```text
//! let setup = Setup { mode, number: 0, roll_off: 0 };
//! let mut transmitter = Transmitter::new(alloc, setup, &matrix)?;
//! let counts = transmitter.run(&mut reader, &mut writer)?;
//! let mut receiver = Receiver::new(alloc, setup, &matrix, 50, 0)?;
//! let step = receiver.next(&mut symbols, &mut packets, &mut report)?;
//! ```
#![tactic(auto)]

mod decider;
mod demodulation;
pub mod laws;
mod receiver;

pub use decider::{Decider, options_of};
pub use demodulation::{DemodFault, demodulate};
pub use receiver::Receiver;
pub use s2_judge::Judge;
pub use s2_link::{Link, MAX_ROLL_OFF, RollOff, Setup, SetupFault};
pub use s2_send::{Counts, MAX_PACKETS, SendFault, Transmitter};
pub use s2_soft::{DEFAULT_DIVISOR, DIVISORS, Divisor};
pub use s2_tuning::{MAX_PASSES, MAX_ROUNDS, Tuning};
