//! Soft values of a received payload, between the physical frame and the decoders. A soft value is a quantized
//! log-likelihood ratio (LLR) of a codeword's bit, by the max-log approximation; a positive one speaks for 0.
//!
//! [`soft_into`] writes exactly the values of the definition, for any symbols, in the codeword's order. They are
//! differences of least squared distances to the points of QPSK or 8PSK (EN 302 307-1, 5.4). Each is divided by a
//! [`Divisor`] toward zero and limited to [`MAX_SOFT`](s2_mode::MAX_SOFT). Without noise, the signs of the values are
//! the codeword, and none is 0 ([`laws::clean`]). No call takes memory.
//!
//! ```text
//! payload_of(mode, &gold, &frame, &mut payload);
//! soft_into(mode, Divisor::usual(), &payload, &mut soft);
//! ```
#![tactic(auto)]

mod divisor;
pub mod laws;
mod psk8;
mod qpsk;
mod soft;
mod values;

pub use divisor::{DEFAULT_DIVISOR, DIVISORS, Divisor};
pub use soft::soft_into;
