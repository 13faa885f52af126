//! The numbers of a frame's blocks of known symbols (EN 302 307-1, 5.5.3).

/// The symbols of 16 slots; a pilot block follows them.
pub(crate) const PILOT_SPACING: usize = 1440;

/// The symbols of a pilot block, and of a stretch with one factor.
pub(crate) const PILOT_BLOCK: usize = 36;

/// The symbols of 16 slots and their pilot block.
pub(crate) const PILOT_PERIOD: usize = 1476;

/// The stretches from the centre of a block to that of the next one.
pub(crate) const STRETCHES: usize = 41;
