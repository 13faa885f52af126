//! The commands of a link: `mod`, `demod`, `run` and `noise`, and `rows`, which makes rows from a seed (EN 302 307-1, 5.1 to
//! 5.5).
//!
//! A command is a public function over its files ([`LinkFiles`]), a console for its report and its faults, and a writer of
//! notes. It opens no file. Its clause `run` says what it writes to each of them, which fault it reports with which exit,
//! and whether it begins its output. If a call fails, its fault is reported once, and a first part of the output is written.
//!
//! ```
//! let mut files = LinkFiles { rows, from: symbols, to: Destination::new(packets) };
//! let exit = demod_command(alloc, setup, &options, &mut files, &mut sinks, &mut console, &mut notes);
//! ```
#![tactic(auto)]

mod advice;
mod choices;
mod demod;
mod frame_notes;
mod link_files;
mod losses;
mod modulate;
mod noise;
mod noisy_reception;
mod refusals;
mod rows;
mod run;
mod seeds;
mod sums;

pub use choices::{Channel, DemodOptions, RunOptions};
pub use demod::demod_command;
pub use link_files::LinkFiles;
pub use losses::finish_reception;
pub use modulate::mod_command;
pub use noise::noise_command;
pub use rows::rows_command;
pub use run::run_command;
