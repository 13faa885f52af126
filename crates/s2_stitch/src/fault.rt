//! Why a recording was not stitched to its end.

use crate::read::RecordFault;
use s2_mode::StreamFault;
use thiserror::Error;

/// Why a source of records stopped.
#[derive(Clone, Copy, Debug, PartialEq, Eq, Error)]
pub enum SourceFault {
    /// The next record could not be read.
    #[error("{0}")]
    Records(RecordFault),
    /// The seal of the next record is not that of its frame. The record is of another recording, of other rows or of other options, or
    /// it was altered.
    #[error("of another recording, of other rows or of other options")]
    OtherRecording,
    /// A read of the copy of the recording failed.
    #[error("cannot read")]
    Recording,
    /// Memory does not suffice for the frame of the next record.
    #[error("no memory")]
    NoMemory,
}

/// Why a recording was not stitched to its end: a fault of the receiver or of the source of records.
#[derive(Clone, Copy, Debug, PartialEq, Eq, Error)]
pub enum StitchFault {
    #[error("{0}")]
    Stream(StreamFault),
    #[error("{0}")]
    Source(SourceFault),
}
