//! The BCH codes of all modes (EN 302 307-1, 5.3.1): encoder, and decoder to the full radius.
//!
//! A word is a list of Nbch bits. A codeword, or word of the code, is one that the encoder can
//! make.
//!
//! The transmitter encodes each BBFRAME here before the LDPC code. The receiver decodes the first
//! Nbch decided bits. `Bch::encode_into` makes the only codeword that begins with the message.
//! `Bch::decode_in_place` returns `Some(c)` exactly if a codeword differs from the argument in at
//! most t places. It is the only one, c is its distance, and it replaces the argument. After `None`
//! every bit is unchanged. `laws` states properties of the codes: their generators and roots, and
//! that codewords are more than 2t apart. A message has one codeword, and decoding is a function:
//! the nearest word. Only `Bch::new` takes memory.
//!
//! The decoder is the usual one: syndromes of the remainder, the Berlekamp-Massey algorithm for the
//! error locator polynomial, and a Chien search for its roots. Before the search a cheap test refuses
//! a polynomial that has not enough roots in the field.
//!
//! ```
//! let mut bch = Bch::new(alloc, mode)?;
//! bch.encode_into(&message, &mut word);
//! assert!(rt; bch.decode_in_place(&mut word) == Some(0));
//! ```
#![tactic(auto)]

mod bch;
mod berlekamp_massey;
mod chien;
mod corrector;
mod divider;
mod generators;
mod lanes;
pub mod laws;
mod register;
mod splitting;
mod syndromes;

pub use bch::Bch;
