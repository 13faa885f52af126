//! What both ends of a link agree on, besides the address rows.
use crate::roll_off::RollOff;
use s2_mode::Mode;
use s2_scramble::ScramblingNumber;

/// What both ends of a link agree on, besides the address rows. The numbers are not tested yet.
#[derive(Clone, Copy, Debug, PartialEq, Eq)]
pub struct Setup {
    pub mode: Mode,
    /// The physical layer scrambling number, at most 262141 (EN 302 307-1, 5.5.4).
    pub number: u32,
    /// The number of the roll-off in headers, at most 2.
    pub roll_off: u8,
}

/// The same with numbers that are known to be in their ranges.
#[derive(Clone, Copy, Debug, PartialEq, Eq)]
pub struct LinkSetup {
    pub mode: Mode,
    pub number: ScramblingNumber,
    pub roll_off: RollOff,
}
