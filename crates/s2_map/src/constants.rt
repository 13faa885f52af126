//! The numbers of the constellations. Angles are the standard's (EN 302 307-1, 5.4), levels this
//! profile's.

/// Both components of a point between the axes.
pub const DIAGONAL: i16 = 700;

/// The component of a point on an axis that isn't 0.
pub const AXIS: i16 = 990;

/// The MODCOD of 8PSK 3/5, which alone reads the columns from the last to the first.
pub const PSK_3_5: u8 = 12;
