//! Why neither end of a link can be made.
use thiserror::Error;

/// Why an end of a link cannot be made. If there are several causes, the first is returned.
#[derive(Clone, Copy, Debug, PartialEq, Eq, Error)]
pub enum SetupFault {
    /// The matrix is not of the mode's shape.
    #[error("other shape")]
    OtherShape,
    /// The scrambling number is over 262141.
    #[error("no such scrambling number")]
    BadNumber,
    /// The roll-off is over 2.
    #[error("no such roll-off")]
    BadRollOff,
    /// The rounds of a receiver are not 1 to 200.
    #[error("no such number of rounds")]
    BadRounds,
    /// The passes of a receiver are over 1000.
    #[error("no such number of passes")]
    BadPasses,
    #[error("no memory")]
    NoMemory,
}
