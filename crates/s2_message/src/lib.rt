//! From a frame's symbols to the soft values of its codeword, and from its decided bits to the message that they carry
//! (EN 302 307-1, 5.1 to 5.5).
//!
//! A [`FrameReader`] is what a decider of frames needs besides the decided bits. The receiver of `s2_modem` has these from a
//! decoder. [`FrameReader::find_soft`] rotates a frame back, equalizes it, and makes
//! soft values. [`FrameReader::read`] takes decided bits: BCH decoding corrects them, and the message's BBHEADER gives the
//! data field. Both do exactly what the definitions say ([`FrameOptions`] selects the rotation, the equalizer and the
//! figures). No decoder of the LDPC code is below this crate.
//!
//! ```text
//! let mut reader = FrameReader::new(alloc, mode, number, options)?;
//! reader.find_soft(&symbols, &mut soft);
//! let decided = reader.read(&symbols, &soft, &word, verdict, rounds);
//! ```
#![tactic(auto)]

mod changed;
mod corrector;
mod correlation_sums;
mod correlations;
mod demodulator;
mod derotator;
mod distances;
mod errors;
mod figures;
mod header;
mod message;
mod meter;
mod options;
mod pilots;
mod reader;

pub use options::FrameOptions;
pub use reader::FrameReader;
