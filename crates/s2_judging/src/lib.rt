//! The command `judge`, over any readers and writers.
//!
//! [`judge_command`] reads a row file and a value file, which has soft values or hard decisions, and prints the verdict
//! on the bits that a receiver decides. It writes their certificate, if there is a file for it. [`judge_each_command`]
//! does so for each frame of a value file, one after another, in the memory of one.
//!
//! The exit is that of the verdict. If a file is refused, a reader or a writer fails, or memory runs out, one line on the
//! errors reports it. Only failed calls are counted. The certificate's file is begun after the input or its first frame
//! was accepted, if there is memory to judge it; otherwise it is unchanged. If soft values look like hard decisions, a
//! note on the errors says so.
//!
//! [`self_command`] judges its input under the toy rows, and prints most likely also if the bits are sole. The files of
//! `judge` are one value ([`JudgeFiles`]).
//!
//! In the literature, soft values are quantized LLRs, and a certificate is an ML certificate.
//!
//! ```text
//! let mut files = JudgeFiles { rows, soft, certificate: Some(Destination::new(file)) };
//! let exit = judge_command(alloc, shape, false, false, Tuning::new(50, 0)?, &mut files, &mut console);
//! ```
#![tactic(auto)]

mod decision;
mod demo;
mod files;
mod frames;
mod hard;
mod hard_note;
mod judge;
mod judge_each;
mod lines;
mod reading;
mod words;

pub use demo::{TOY_ROWS, self_command};
pub use files::JudgeFiles;
pub use judge::judge_command;
pub use judge_each::judge_each_command;
