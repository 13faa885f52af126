//! How a receiver is tuned.
//!
//! A [`Tuning`] has the parameters of a receiver: the rounds (iterations) of min-sum, the passes of settling, and the
//! divisor of soft values (LLRs). It also has the factor of min-sum's messages, and how many bits of a header may be
//! wrong right after a frame. Settling looks for a certificate by dual coordinate ascent, layer by layer. Figures of each
//! frame are measured, and frames that are rotated by quarter turns are received, only if the tuning says so.
//!
//! A [`Wanted`] is what a user asks for, with numbers that are not tested yet. [`tuning_by`] makes the tuning of a
//! receiver of it: a number that is given, else the best one of the mode's code if that is requested, else the default.
//! The best ones were measured; a table has a line for each code. [`judging_by`] makes the tuning of a single decision.
//!
//! ```text
//! let tuning = Tuning::new(50, 0)?;
//! let tuning = tuning_by(&mode, wanted).ok_or("a number out of its range")?;
//! ```
#![tactic(auto)]

mod best;
mod divisor;
pub mod laws;
mod tuning;
mod wanted;

pub use divisor::divisor_by;
pub use tuning::{DEFAULT_ROUNDS, MAX_PASSES, MAX_ROUNDS, Tuning};
pub use wanted::{Number, Wanted, judging_by, tuning_by};
