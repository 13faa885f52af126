//! The command `compare`, over any readers and writers: the words of another receiver beside certified ones.
//!
//! [`compare_command`] reads a row file, certificates that follow each other, and a device's word for each of them, in
//! one of the forms of [`Form`]. The certificate proves the least cost of a codeword, so no decoder is below this crate.
//! For each frame it prints whether the device's word is the certified one. If it is not, the line says how it differs:
//! another codeword that costs as much, one that costs more, or no codeword.
//!
//! The results are [`Compared`]. [`laws`] says what follows from them: a device whose word costs more did not decide by
//! maximum likelihood. Words are encoded (EN 302 307-1, 5.2 and 5.3) if the file has BBFRAMEs.
//!
//! ```text
//! let exit = compare_command(alloc, Form::Bytes(shape), &mut rows, &mut certificates, &mut words, &mut console);
//! ```
#![tactic(auto)]

mod answers;
mod compared;
mod counts;
mod each;
mod encoder;
mod form;
pub mod laws;
mod lines;
mod spelling;
mod step;
mod word_reader;

pub use compared::Compared;
pub use each::compare_command;
pub use form::Form;
