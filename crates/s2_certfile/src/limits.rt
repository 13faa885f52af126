//! The limits of a certificate.

/// The largest scale.
pub const MAX_SCALE: u16 = 4096;

/// The most shares: 24 for each bit of the longest codeword.
pub const MAX_SHARES: usize = 1_555_200;
