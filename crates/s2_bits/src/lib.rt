//! Lists of bits: codewords, messages and hard decisions, one truth value for each bit. And words in
//! the lanes of vectors.
//!
//! In contracts a [`Bits`] is the list of its truth values. Each call's clauses give the exact value at each place, and
//! say which places are unchanged. Only [`Bits::zeroed`] and [`Bits::from_bytes`] allocate. Bytes hold their highest
//! bit first, as in all of EN 302 307-1. A loop over a whole list works on the slice that [`Bits::truths`] lends.
//!
//! [`add_rotated`] adds a rotated row of bits to another; codes whose rows are repeated by groups of bits are computed
//! with it. [`add_back`] does the same with words of 32 bits, rotated the other way. [`xor_first`] adds the first bits
//! of one slice to those of another. [`bits_into`], [`byte_at`] and [`bytes_from`] convert between bytes and bits, and
//! [`eight_from`] loads eight bits into a vector. [`lanes16`] and [`lanes32`] have the operations on lanes of words:
//! sums and differences modulo 2^16 or 2^32, the lesser word, and a choice lane by lane. The definitions of bits,
//! bytes, the numbers that bits spell and words in lanes are in `specs/`, for all crates.
//!
//! ```
//! let bits = Bits::from_bytes(alloc, &[0xa0], 4)?;
//! assert_eq!(bits.truths(), [true, false, true, false]);
//! assert_eq!(bits.count_ones(), 2);
//! ```
#![tactic(auto)]

mod bits;
mod bools;
mod lanes;
pub mod lanes16;
pub mod lanes32;
mod rotations;
mod rows32;
mod spelling;

pub use bits::Bits;
pub use bools::xor_first;
pub use lanes::eight_from;
pub use rotations::add_rotated;
pub use rows32::add_back;
pub use spelling::{bits_into, byte_at, bytes_from};
