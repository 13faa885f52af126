//! Certificates for noisy frames: settling, the second maker of splits.
//!
//! It works beside the maker of greedy amounts (`s2_split`), and replaces its spreading. On links that work, it
//! finds a certificate for nearly every codeword that min-sum decodes. Each check moves an amount from its
//! other members to the one with the least rest, layer by layer: half of the gap to the next rest, less a
//! reserve. The reserve is smaller if the third rest is far away, and it falls with a margin. The margin falls as
//! fast as the number of lacking bits, those whose rest is below 1. So a rest is lifted above zero, and its
//! neighbours are not dragged to exactly zero. As long as fewer bits lack, amounts go further.
//! An attempt ends early when the lacking bits grow. This project's own rule is in `specs/Plain.antt`, by checks
//! and their members.
//!
//! In the literature's words, settling is dual coordinate ascent by layers, with a margin and over-relaxation.
//! The certificate is a dual solution of LP decoding. Its rests are the reduced costs: the slack of the dual
//! constraints.
//!
//! Rests are words of 16 bits, modulo 2^16. No bound is proved of them: each certificate is summed anew, in
//! whole numbers, before anything is claimed.
//!
//! [`DualAscent::certify`] finds exactly what the definition `settled` says of its arguments and the matrix. It
//! returns `true` only if the checker of certificates accepts the result and finds it strict. It is not
//! promised that passes lead to a certificate. [`DualAscent::held`] shows the certificate found. Only
//! [`DualAscent::new`] takes memory.
//!
//! The ascent keeps rests in rows of a group, and a layer's targets and amounts in rows of the same number of
//! lanes. There is one check a lane, so all checks of a layer are processed at once. Laws say that the rows and
//! lanes are the checks and members ([`laws::start`], [`laws::layer`]). None of it shows in a clause of
//! [`DualAscent`].
//!
//! ```text
//! let mut ascent = DualAscent::new(alloc, &matrix)?;
//! if ascent.certify(&soft, &word, 96) {
//!     ascent.held(&soft, &word).write(&mut file)?;
//! }
//! ```
#![tactic(auto)]

mod course;
mod dual_ascent;
mod exchange;
mod find;
mod held;
mod kernels;
mod lacking;
mod lanes;
pub mod laws;
mod layer;
mod limits;
mod moves;
mod one_layer;
mod passes;
mod start;

pub use dual_ascent::DualAscent;
pub use limits::SETTLING_SCALE;
