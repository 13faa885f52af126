//! Certificates for frames with wrong hard decisions: the repair of a hard decision, and the split
//! that shows a codeword to be most likely. A word is a bit for each place of a codeword, whether or
//! not it is one.
//!
//! A [`Maker`] uses the parity checks and the checker of certificates; the receiver's decision uses
//! it. It takes all its memory when it is made: one rest for each bit, one move and one count for
//! each check. [`Maker::repair_into`] flips each bit that is in at least two checks, all of them
//! odd. [`Maker::make`] first lets each wrong bit take what it lacks from its checks (greedy
//! amounts). If a rest below zero is left, it spreads: check by check, the least rest gains half of
//! the difference to the next. The result depends on the arguments alone. Each split that it makes
//! is accepted, so its word is most likely. If the soft values are scattered about a codeword, the
//! repair is that codeword and a split is found.
//!
//! In the literature's words, a split is a dual solution of LP decoding, and its rests are the
//! reduced costs: the slack of the dual constraints. Spreading is dual coordinate ascent, one check
//! at a time; the repair is bit flipping.
//!
//! ```text
//! let mut maker = Maker::new(alloc, &matrix)?;
//! maker.repair_into(&soft, &mut word);
//! if let Some(view) = maker.make(&soft, &word) {
//!     view.write(&mut file)?;
//! }
//! ```
#![tactic(auto)]

mod greedy;
pub mod laws;
mod limits;
mod make;
mod maker;
mod negatives;
mod repair;
mod rests;
mod spread;
mod start;

pub use limits::{MAX_SPREAD_PASSES, SPREAD_SCALE};
pub use maker::Maker;
