//! The names of the modes, and what each mode is.
//!
//! A mode is named by its constellation and its code rate, as `qpsk3/4` or `QPSK3/4`: [`modcod_of`] reads such a name,
//! and [`constellation`] returns its first part. [`write_code`] writes the code of a mode in words.
//! [`modes_text`] has a line for each code, and [`mode_text`] is one of them. If a [`SymbolRate`] is given, a line has
//! the bits of the transport stream per second too. [`modes_command`] prints them. [`SymbolRate::read`] reads a rate, as
//! `27500000` or `27.5M`.
//!
//! ```text
//! assert_eq!(modcod_of("8psk2/3"), Some(13));
//! ```
#![tactic(auto)]

mod command;
pub mod laws;
mod listing;
mod names;
mod rate;
mod rate_text;
mod texts;
mod writing;

pub use command::modes_command;
pub use listing::{mode_text, modes_text};
pub use names::{Case, constellation, modcod_of};
pub use rate::{MAX_RATE, SymbolRate};
pub use writing::write_code;
