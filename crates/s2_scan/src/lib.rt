//! The contents of an unknown recording: its headers, their modes, and the form of its symbols.
//!
//! A recording may be in either byte order, conjugated and rotated. [`scan_command`] tests each position in all sixteen
//! forms for each header of the standard (PLHEADER, EN 302 307-1, 5.5.2): MODCOD 0 to 28 with every TYPE. A position
//! passes with at most 4 wrong bits of the 26 of the SOF and at most 12 of all 90. A header that comes twice at its
//! frame's distance has a line. The last line is the command that receives the likeliest frames. If there is no such header,
//! two lines say how strong the symbols are. [`amplitude_by`], [`is_usual`] and [`gain_of`] say how strong symbols are, and
//! which gain they need. A [`Beginning`] is the first symbols of a recording. [`find_headers`] lists the headers of a recording in memory. [`push_name`] writes a file's name as a word of
//! a shell.
//!
//! ```text
//! let exit = scan_command(rt.alloc(), name, &mut symbols, &mut console);
//! ```
#![tactic(auto)]

mod advice;
mod amplitude;
mod beginning;
mod candidate;
mod candidates;
mod codes;
mod command;
mod distances;
mod forms;
pub mod laws;
mod lines;
mod number;
mod passes;
mod pilots;
mod ranking;
mod reading;
mod recording;
mod shell;
mod strength;
mod sums;
mod tally;
mod text;
mod texts;
mod trial;
mod windows;

pub use advice::{gain_of, is_usual};
pub use amplitude::amplitude_by;
pub use beginning::Beginning;
pub use candidate::Candidate;
pub use command::scan_command;
pub use recording::find_headers;
pub use shell::push_name;
