//! Codewords of a code by parity checks (EN 302 307-1, 5.3.2): the encoder.
//!
//! [`encode_into`] writes the codeword (FECFRAME) that begins with given information bits. Its contract says
//! that the result is a codeword of the matrix and begins with them. [`laws::unique`] says that no
//! other does. It allocates nothing.
//!
//! ```
//! let mut codeword = Bits::zeroed(alloc, matrix.bits())?;
//! encode_into(&matrix, &info, &mut codeword);
//! assert!(matrix.satisfied(&codeword));
//! ```
#![tactic(auto)]

mod encode;
pub mod laws;

pub use encode::encode_into;
