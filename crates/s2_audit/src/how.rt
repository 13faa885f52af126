//! How a report was made.

use s2_message::FrameOptions;
use s2_plframe::HeaderTolerance;

/// How a report was made: how its frames were read, and the limit of wrong header bits right after a frame. With `resync` the symbols
/// of lost frames were searched again, so a frame may begin inside an earlier one.
#[derive(Clone, Copy)]
pub struct How {
    pub options: FrameOptions,
    pub max_header_errors: HeaderTolerance,
    pub resync: bool,
}
