//! Figures, as C has them.
ghost use Rattle.std.specs.Prelude.{◌≡◌};
ghost use Rattle.s2_library.specs.Fields as fields;

use s2_equalize::{Complex, Removed};
use s2_report::{Figures, Sums};

/// The size of [`FiguresFields`] in bytes.
pub(crate) const SIZE: u32 = 144;

/// The figures of a frame, or their sums.
#[repr(C)]
#[derive(Clone, Copy)]
pub struct FiguresFields {
    pub size: u32,
    pub header: u32,
    pub rounds: u32,
    pub equalized: u32,
    pub changed: u64,
    pub changed_of: u64,
    pub known: u64,
    pub known_of: u64,
    pub payload: u64,
    pub payload_of: u64,
    pub known_power: u64,
    pub known_along: i64,
    pub known_across: i64,
    pub payload_power: u64,
    pub payload_along: i64,
    pub payload_across: i64,
    pub gain_along: i64,
    pub gain_across: i64,
    pub rotation_along: i64,
    pub rotation_across: i64,
}

/// What the equalizer took out of a frame, or zeros if it was not used.
fn removed_or_zeros(removed: Option<Removed>) -> Removed
    ensures { result ≡ fields.removed_or_zeros removed }
{
    let zero = Complex { re: 0, im: 0 };
    match removed {
        None => Removed {
            gain: zero,
            rotation: zero,
        },
        Some(removed) => removed,
    }
}

/// The figures of a frame.
pub(crate) fn figures_fields(figures: Figures) -> FiguresFields
    ensures { result ≡ fields.figures_fields figures }
{
    let removed = removed_or_zeros(figures.removed);
    FiguresFields {
        size: SIZE,
        header: figures.header,
        rounds: figures.rounds,
        equalized: u32::from(figures.removed.is_some()),
        changed: figures.changed.sum,
        changed_of: figures.changed.of,
        known: figures.known.sum,
        known_of: figures.known.of,
        payload: figures.payload.sum,
        payload_of: figures.payload.of,
        known_power: figures.known_correlation.power,
        known_along: figures.known_correlation.along,
        known_across: figures.known_correlation.across,
        payload_power: figures.payload_correlation.power,
        payload_along: figures.payload_correlation.along,
        payload_across: figures.payload_correlation.across,
        gain_along: removed.gain.re,
        gain_across: removed.gain.im,
        rotation_along: removed.rotation.re,
        rotation_across: removed.rotation.im,
    }
}

/// The sums of figures. Those of header, rounds, correlations and the equalizer are not kept, and are 0.
pub(crate) fn sums_fields(sums: Sums) -> FiguresFields
    ensures { result ≡ fields.sums_fields sums }
{
    FiguresFields {
        size: SIZE,
        header: 0,
        rounds: 0,
        equalized: 0,
        changed: sums.changed.sum,
        changed_of: sums.changed.of,
        known: sums.known.sum,
        known_of: sums.known.of,
        payload: sums.payload.sum,
        payload_of: sums.payload.of,
        known_power: sums.known_power,
        known_along: 0,
        known_across: 0,
        payload_power: sums.payload_power,
        payload_along: 0,
        payload_across: 0,
        gain_along: 0,
        gain_across: 0,
        rotation_along: 0,
        rotation_across: 0,
    }
}
