//! The receiver's decision on the soft values of one frame (own: the standard does not define receivers). It has the
//! decided bits, a verdict on them, and a certificate if they are shown to be sole or most likely.
//!
//! A [`Judge`] uses the checker, both makers of certificates and min-sum; the receiver uses it. It takes all its memory
//! when it is made. Its [`s2_tuning::Tuning`] limits its work. It decides exactly what the definition `decided` says of
//! the address rows, the tuning and the soft values, whatever was decided before. Bits that are called sole or
//! most likely satisfy every check, and no bits that satisfy every check cost less. If they are called sole, all others
//! cost more. These bits, and only these, have a certificate, and the checker accepts it. Bits that are not called
//! broken are a codeword, and broken ones are not ([`laws`]). It also says how many rounds of min-sum it ran.
//!
//! In the literature, soft values are quantized LLRs, rounds are iterations of min-sum, and a certificate is an ML
//! certificate.
//!
//! ```text
//! let mut judge = Judge::new(alloc, &matrix, Tuning::new(50, 0)?)?;
//! soft_into(mode, &payload, judge.soft_mut());
//! let verdict = judge.decide();
//! if let Some(view) = judge.certificate() {
//!     view.write(&mut file)?;
//! }
//! ```
#![tactic(auto)]

mod certifier;
mod early_repair;
mod early_syndrome;
mod evidence;
mod judge;
pub mod laws;
mod steps;

pub use judge::Judge;
