//! The limit of an audit.

/// The maximum number of lines of a report.
pub const MAX_LINES: u64 = 1 << 40;
