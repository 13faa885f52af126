//! The numbers that bound codes, soft values, headers and streams, each here alone.

/// The most bits of a codeword.
pub const MAX_BITS: usize = 64800;

/// The most bits of a group.
pub const MAX_GROUP: usize = 360;

/// The largest MODCOD of the modes here (EN 302 307-1, table 12).
pub const MAX_MODCOD: u8 = 17;

/// The largest soft value. The least is its negative.
pub const MAX_SOFT: u16 = 511;

/// The symbols of a physical layer header (PLHEADER, EN 302 307-1, 5.5.2). It has the same number of bits.
pub const HEADER_SYMBOLS: usize = 90;

/// The symbols of a dummy frame (dummy PLFRAME, EN 302 307-1, 5.5.1): a header and 36 slots of 90.
pub const DUMMY_SYMBOLS: usize = 3330;

/// The most symbols of a stream that one call, one command or one receiver takes.
pub const MAX_SYMBOLS: u64 = 1 << 40;
