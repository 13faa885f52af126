//! The limit of row files.

/// The most addresses of a row.
pub const MAX_ADDRESSES: usize = 24;
