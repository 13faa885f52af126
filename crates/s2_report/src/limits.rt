//! The limit of a line.

/// The maximum length of a readable line in bytes, without its LF.
pub const MAX_LINE_BYTES: usize = 639;
