//! An equalizer with one tap, between the frame search and soft values: it takes the gain of the channel out of a frame.
//!
//! An [`Equalizer`] knows the symbols of the header and of the pilot blocks (EN 302 307-1, 5.5.2 and 5.5.3). From them
//! [`Equalizer::equalize_into`] estimates the complex gain of a received frame: its amplitude, its phase and the rotation of
//! the carrier from block to block. It returns exactly the symbols that `equalized` defines, each divided by the gain at
//! its place, and the gain that it removed ([`Removed`]). Only [`Equalizer::new`] takes memory. If a frame arrives without noise, times a whole gain and rotated by quarter
//! turns, it returns the frame that was sent ([`laws::exact`]). A [`FrameEqualizer`] has a buffer for a frame, if an equalizer is
//! requested.
//!
//! ```text
//! let mut equalizer = Equalizer::new(alloc, mode, number)?;
//! equalizer.equalize_into(&symbols, &mut equalized);
//! ```
#![tactic(auto)]

mod carrier;
mod complex;
mod constants;
mod equalizer;
mod factors;
mod frame;
mod frame_equalizer;
mod gains;
pub mod laws;
mod smoothing;

pub use complex::Complex;
pub use equalizer::{Equalizer, Removed};
pub use frame_equalizer::FrameEqualizer;
