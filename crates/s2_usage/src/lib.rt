//! Usage errors of the command line.
//!
//! [`read_words`] parses the arguments. Or it returns why there is nothing to read: help or the version is requested, or memory ran
//! out, or there is a usage error, reported by one line. [`refused_value`] makes the line for a value that the parser accepts and its
//! reader refuses, [`not_text`] that for an argument that is not UTF-8.
#![tactic(auto)]

mod misuse;
mod refusal;
mod unread;
mod words;

pub use refusal::{Refused, not_text, not_understood, refused_value};
pub use unread::Unread;
pub use words::read_words;
