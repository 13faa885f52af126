//! How frames are read.

use s2_soft::Divisor;

/// How the frames of a stream are read. `divisor` is that of their soft values. With `turns`, frames that arrive rotated
/// by quarter turns are rotated back. With `equalize`, each symbol is divided by the gain of the channel. With `figures`,
/// the figures of each frame are found.
#[derive(Clone, Copy, Debug, PartialEq, Eq)]
pub struct FrameOptions {
    pub divisor: Divisor,
    pub turns: bool,
    pub equalize: bool,
    pub figures: bool,
}
