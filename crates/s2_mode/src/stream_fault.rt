//! Why a stream was not copied to its end.
use thiserror::Error;

/// Why a stream was not copied to its end.
#[derive(Clone, Copy, Debug, PartialEq, Eq, Error)]
pub enum StreamFault {
    /// A read failed, or the most symbols that are allowed were taken.
    #[error("cannot read")]
    Read,
    /// A write failed.
    #[error("cannot write")]
    Write,
}
