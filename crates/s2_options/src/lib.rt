//! Options of the command line in the types of the stages.
//!
//! The parser of `s2_arguments` has tested every number: its ranges are those of these types, as constants prove. So only a mode
//! or a shape can be missing: not each MODCOD has short frames.
//!
//! ```text
//! let setup = setup_of(words.link).ok_or(Unserved::NoMode)?;
//! let tuning = tuning_of(&setup.mode, words.tuning).ok_or(Unserved::NoMode)?;
//! ```
#![tactic(auto)]

mod limits;
mod setup;
mod tuning;

pub use setup::{setup_of, shape_of};
pub use tuning::{audited_tuning, tuning_of};
