//! The command `check`, over any readers and writers.
//!
//! [`check_command`] reads a row file and a certificate, and prints the checker's result. [`check_each_command`] does so
//! for each certificate of a file, one after another. No decoder is below this crate.
//!
//! The exit is that of the result. If a file is refused, a reader or a writer fails, or memory runs out, one line on the
//! errors reports it. Only failed calls are counted.
//!
//! The command `judge` (`s2_judging`) shares three calls with it: [`with_cost`] begins the line of a verdict, [`sole_line`]
//! is the line of sole bits, and [`worse`] is the exit of several lines.
//!
//! The command `compare` (`s2_compare`) reads certificates by [`next_certificate`], in the room of [`piece_room`].
//!
//! In the literature, a certificate is an ML certificate.
//!
//! ```text
//! let exit = check_command(alloc, &mut rows, &mut certificate, &mut console);
//! ```
#![tactic(auto)]

mod check;
mod check_each;
mod lines;
mod next;
mod sizes;

pub use check::check_command;
pub use check_each::{check_each_command, worse};
pub use lines::{sole_line, with_cost};
pub use next::{next_certificate, piece_room};
