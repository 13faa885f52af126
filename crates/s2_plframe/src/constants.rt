//! The numbers of a physical layer frame (EN 302 307-1, 5.5), and those of this profile's header test.

/// The largest number of wrong bits with which a header passes.
pub const HEADER_THRESHOLD: u32 = 12;

/// The largest number of wrong bits that a [`crate::HeaderTolerance`] may allow right after a frame.
pub const MAX_LOCK: u32 = 40;

/// The symbols of 16 slots; a pilot block follows them.
pub(crate) const PILOT_SPACING: usize = 1440;

/// The symbols of a pilot block.
pub(crate) const PILOT_BLOCK: usize = 36;

/// The symbols of 16 slots and their pilot block.
pub(crate) const PILOT_PERIOD: usize = 1476;

/// The symbols of a slot.
pub(crate) const SLOT: usize = 90;

/// The slots of a dummy frame.
pub(crate) const DUMMY_SLOTS: usize = 36;
