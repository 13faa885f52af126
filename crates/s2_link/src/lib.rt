//! What both ends of a DVB-S2 link agree on.
//!
//! A [`Setup`] is a mode, a scrambling number and a roll-off that are not tested yet. [`Link::new`] tests them and
//! the matrix of the address rows. It returns the first refusal of `OtherShape`, `BadNumber` and `BadRollOff`, or a
//! [`Link`], which both ends accept. Nothing is refused if the numbers are known to be in their ranges, as those of a
//! [`LinkSetup`] ([`Link::of`]).
//!
//! ```text
//! let link = Link::new(Setup { mode, number: 0, roll_off: 0 }, &matrix)?;
//! ```
#![tactic(auto)]

mod fault;
pub mod laws;
mod link;
mod roll_off;
mod setup;

pub use fault::SetupFault;
pub use link::Link;
pub use roll_off::{MAX_ROLL_OFF, RollOff};
pub use setup::{LinkSetup, Setup};
