//! Hard decisions, their costs, and certificates that a word is most likely (maximum likelihood). They are made before
//! the BCH code corrects the decided bits, and prove a receiver's verdict. A word is a bit for each place of a
//! codeword, whether or not it is a codeword.
//!
//! In the literature a split is a dual solution of LP decoding, and a rest, or slack, is the reduced cost of a bit.
//!
//! A word's cost is the sum of the soft values over its ones. A codeword is most likely if no codeword costs less.
//! [`judge_unsplit`] returns true exactly if the hard decision is a codeword, which is then most likely. Any other word
//! needs a split of its soft values over the checks. [`check`] returns Yes exactly for a [`CertView`] whose split is
//! accepted for its word. The word is then most likely by weak duality ([`laws::weak_duality`]), however the split was
//! found. If its rests in favour of the word are all at least 1, every other codeword costs more
//! ([`laws::strictness`]); [`sole`] returns true exactly then.
//!
//! [`Certificate::read`] accepts exactly the files of the format, of both versions. [`Certificate::view`] lends one for
//! a matrix. A file that [`CertView::write`] writes is accepted, and lent as the same view ([`laws::read_back`],
//! [`laws::same_view`]). Only `read` allocates.
//!
//! ```
//! let certificate = Certificate::read(alloc, &bytes)?;
//! match certificate.view(&matrix) {
//!     Some(view) => println!(rt; "{:?}", check(&matrix, &view))?,
//!     None => println!(rt; "another shape")?,
//! }
//! ```
#![tactic(auto)]

mod certificate;
mod checker;
mod hard;
mod lane_tally;
mod lanes;
pub mod laws;
mod listed_rests;
mod local;
mod moved;
mod moved_bound;
mod rests;
mod row_rests;
mod same;
mod shares;
mod step;
mod strict;
mod sums;
mod taken;
mod tally;
mod verdict;
mod view;
mod write;

pub use certificate::Certificate;
pub use checker::{Answer, Examined, Refusal, check, examine, sole};
pub use hard::{cost, hard_into, judge_unsplit, none_is_zero};
pub use s2_certfile::{CertFault, MAX_SCALE, MAX_SHARES, Move};
pub use step::MAX_MOVED;
pub use verdict::Verdict;
pub use view::CertView;
