//! The limit of a receiver.

/// The most symbols that a receiver takes in all, unless a lower limit is set. No stream ends there: at 27.5 million
/// symbols a second they take 5,000 years.
pub const MAX_SYMBOLS: u64 = 1 << 62;
