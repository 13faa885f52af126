//! The bit interleaver and the constellations of QPSK and 8PSK (EN 302 307-1, 5.3.3 and 5.4),
//! between the encoder and the physical frame. They make an XFECFRAME, the payload, of a FECFRAME, the codeword.
//!
//! [`place`] returns the bit of a codeword that is sent as payload bit `i`. [`point`] returns the symbol of a label.
//! [`map_into`] writes exactly the payload of a codeword: symbol `s` is the point
//! whose label is the bits of the codeword at the places of its two or three payload bits.
//! [`laws::interleaver`] says that each bit of a codeword is sent once. No call takes memory.
//!
//! ```text
//! map_into(mode, &codeword, &mut payload);
//! ```
#![tactic(auto)]

mod constants;
mod interleaver;
mod lanes;
pub mod laws;
mod mapper;
mod points;

pub use constants::{AXIS, DIAGONAL, PSK_3_5};
pub use interleaver::place;
pub use mapper::map_into;
pub use points::point;
