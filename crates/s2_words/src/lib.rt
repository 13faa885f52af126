//! The requests of a command line.
//!
//! A [`Request`] is a command with all its options, as plain numbers and texts. `s2_command_line` reads it from the arguments, with
//! [`read_modcod`], [`read_seeds`], [`read_piece`] and [`progress_by`].
#![tactic(auto)]

pub mod limits;
mod options;
mod ranges;
mod request;

pub use options::{progress_by, read_modcod};
pub use ranges::{read_piece, read_seeds};
pub use request::{
    AuditArguments, ChannelArguments, CheckArguments, CodeArguments, CompareArguments,
    DemodArguments, ExitBy, JoinArguments, JudgeArguments, LinkArguments, ModArguments,
    ModesArguments, NoiseArguments, NoteArguments, NumberArguments, Piece, Progress,
    RecordArguments, Request, RowsArguments, RunArguments, ScanArguments, Seeds,
    SentRecordArguments, ShapeArguments, StitchArguments, StrengthArguments, TableArguments,
    TuningArguments, WordsArguments,
};

/// The version of the program.
pub const VERSION: &str = "0.1";
