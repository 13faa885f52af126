//! The numbers of the min-sum rule, all in one place.

/// The largest magnitude: that of a larger input counts as this.
pub const MAX_MAGNITUDE: u16 = 1023;

/// The largest magnitude of a message, with any factor: a check of one member sends it if magnitudes are kept whole.
pub const MAX_MESSAGE: u16 = MAX_MAGNITUDE;
