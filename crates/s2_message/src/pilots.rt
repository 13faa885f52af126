//! The numbers of a frame's pilot blocks (EN 302 307-1, 5.5.3).

/// The symbols of 16 slots; a pilot block follows them.
pub(crate) const PILOT_SPACING: usize = 1440;

/// The symbols of a pilot block.
pub(crate) const PILOT_BLOCK: usize = 36;

/// The symbols of 16 slots and their pilot block.
pub(crate) const PILOT_PERIOD: usize = 1476;
