//! The totals of a receiver, as C has them.
ghost use Rattle.std.specs.Prelude.{◌≡◌};
ghost use Rattle.s2_library.specs.Fields as fields;

use s2_report::Totals;

/// The size of [`TotalsFields`] in bytes.
pub(crate) const SIZE: u32 = 120;

/// The totals of a receiver.
#[repr(C)]
#[derive(Clone, Copy)]
pub struct TotalsFields {
    pub size: u32,
    pub cut: u32,
    pub frames: u64,
    pub delivered: u64,
    pub packets: u64,
    pub bad: u64,
    pub incomplete: u64,
    pub skipped: u64,
    pub places: u64,
    pub first: u64,
    pub refused: u64,
    pub energy: u64,
    pub reserved: [u64; 4],
}

/// The totals.
pub(crate) fn totals_fields(totals: Totals) -> TotalsFields
    ensures { result ≡ fields.totals_fields totals }
{
    TotalsFields {
        size: SIZE,
        cut: u32::from(totals.cut),
        frames: totals.frames,
        delivered: totals.delivered,
        packets: totals.packets,
        bad: totals.bad,
        incomplete: totals.incomplete,
        skipped: totals.skipped,
        places: totals.places,
        first: totals.first,
        refused: totals.refused,
        energy: totals.energy,
        reserved: [0; 4],
    }
}
