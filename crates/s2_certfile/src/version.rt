//! The versions of the format, and the widths of their numbers.

/// The form of a file's split.
#[derive(Clone, Copy, Debug, PartialEq, Eq)]
pub enum Version {
    /// A share for each edge: version 1.
    Listed,
    /// A move for each check: version 2.
    Moved,
}

/// How many bytes a soft value has.
pub(crate) const SOFT_BYTES: usize = 2;

/// How many bytes a share has.
pub(crate) const SHARE_BYTES: usize = 4;

/// How many bytes a move has.
pub(crate) const MOVE_BYTES: usize = 6;
