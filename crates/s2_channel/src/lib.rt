//! A channel for tests: noise that a seed determines, added to symbols.
//!
//! It is used between the transmitter and the receiver, and adds noise of one [`Strength`] to the symbols that were sent.
//!
//! - By a level L, each component of a symbol gains the sum of eight random bytes less its mean, times L over 256: nearly a normal
//!   distribution, of standard deviation 209.0 L / 256.
//! - By an Es/N0 (AWGN), each component gains the sum of eight entries of a table, by random bytes, times a fixed-point amplitude, to the
//!   nearest whole number. This is nearly a normal distribution, up to 8.8 standard deviations. Before it is rounded, its variance is N0/2
//!   for symbols of energy Es = 2 · 700². Rounding changes it by 0.014 % at 30 dB and by 0.173 % at 40 dB.
//!
//! The bytes are those of one `Pcg32` of the seed, so that any program draws the same ones. [`Noise::add`] promises exactly that
//! symbol, [`Noise::add_to`] and [`add_to_all`] those symbols of a list and of a whole stream. [`laws::silent`] says that level 0 changes
//! nothing, [`laws::table`] that the table has the moments of a normal distribution, and [`laws::gaussian`] that amplitudes are right.
//! Nothing here takes memory.
//!
//! ```
//! let mut noise = Noise::new(1, 256);
//! let noisy = noise.add(Symbol { i: 700, q: 700 });
//! assert_eq!(noisy, Symbol { i: 933, q: 751 });
//! ```
#![tactic(auto)]

pub mod laws;
mod noise;
mod stream;
mod strength;
mod table;

pub use noise::Noise;
pub use stream::add_to_all;
pub use strength::{EsN0, LEAST_ESN0, MAX_ESN0, Strength};
