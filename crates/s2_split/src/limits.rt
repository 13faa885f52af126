//! The numbers of spreading, all in one place.

/// The factor of soft values, so that halves can be moved.
pub const SPREAD_SCALE: u16 = 16;

/// The largest number of passes over the checks.
pub const MAX_SPREAD_PASSES: u32 = 64;
