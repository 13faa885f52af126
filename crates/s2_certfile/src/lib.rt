//! Certificate files: their contents and their bytes. The checker, `s2_check`, lends the contents as a view.
//!
//! A file begins with S2ML and a version, a shape and a scale. A soft value and a bit for each place of a codeword
//! follow, and then a split of the soft values. In version 1 this is a share for each edge, in version 2 a move for
//! each check. [`Contents::read`] accepts exactly the files of the format, which `specs/Format` describes from top to
//! bottom. It returns the first refusal of any other file. Only it allocates. The bytes that [`write_header`],
//! [`write_soft`], [`write_word`] and then [`write_share`] or [`write_move`] append are accepted as the same contents
//! ([`laws::read_back`]).
//!
//! ```
//! let contents = Contents::read(alloc, &bytes)?;
//! println!(rt; "{} places, scale {}", contents.shape().n(), contents.scale())?;
//! ```
#![tactic(auto)]

mod contents;
mod entries;
mod fault;
mod header;
mod held;
pub mod laws;
mod limits;
mod lists;
mod page;
mod step;
mod version;
mod write;

pub use contents::Contents;
pub use fault::CertFault;
pub use header::FileHeader;
pub use held::Held;
pub use limits::{MAX_SCALE, MAX_SHARES};
pub use page::Page;
pub use step::Move;
pub use version::Version;
pub use write::{write_header, write_move, write_share, write_soft, write_word};
