//! The numbers of the settling rule, all in one place.

/// The factor of soft values: rests, margins and amounts count in sixteenths of one.
pub const SETTLING_SCALE: u16 = 16;

/// Few bits lack if at most one bit in this number does.
pub const BITS_A_FEW: usize = 200;

/// The first pass before which settling can be given up.
pub const FIRST_END: u32 = 2;

/// It is given up if the lacking bits have grown by more than this number since the pass before.
pub const MAX_GROWTH: usize = 24;

/// The word of a rest of 0.
pub(crate) const ZERO_REST: u16 = 1 << 15;

/// The word of a rest of 1, the least that does not lack.
pub(crate) const LEAST_REST: u16 = ZERO_REST + 1;
