//! The size of a header, and the limit of a join.

/// The bytes of a BBHEADER.
pub(crate) const HEADER_BYTES: usize = 10;

/// The maximum number of BBFRAMEs of one join.
pub const MAX_FRAMES: u64 = 1 << 40;
