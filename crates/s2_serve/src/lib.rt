//! The commands `table`, `judge`, `check`, `compare`, `scan`, `join` and `audit` on the files of the command line. Each call
//! makes the command's types of its options, opens its files, and runs it on them.
//!
//! [`serve_audit`] compares the record of `--about` too, and notes the likely causes of a refusal.
//!
//! This is plain code: each command has its own contract. The contracts here say what a command requires of its files, and
//! that a fault can still be reported.
//!
//! ```text
//! let exit = serve_check(&mut opener, alloc, words, &mut console)?;
//! ```
#![tactic(auto)]

mod about;
mod audit;
mod judging;
mod opening;
mod options;
mod streams;

pub use audit::serve_audit;
pub use judging::{serve_check, serve_compare, serve_judge, serve_table};
pub use streams::{serve_join, serve_scan};
