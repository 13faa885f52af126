//! The counts of a join.
ghost use Rattle.std.specs.Prelude.{◌≡◌, ◌+◌, ◌^◌, ◌<◌};
ghost use Rattle.s2_records.specs.Counting.{IsFew, counted};

/// The counts of a frame: 1 if its header is accepted, else 0; its packets; and the bodies with a wrong CRC-8.
#[derive(Clone, Copy)]
pub(crate) struct FrameCounts {
    pub(crate) delivered: u64,
    pub(crate) packets: u64,
    pub(crate) bad: u64,
}

/// The counts so far: frames, those with an accepted header, packets, and bodies with a wrong CRC-8.
#[derive(Clone, Copy)]
pub(crate) struct Counts {
    pub(crate) frames: u64,
    pub(crate) delivered: u64,
    pub(crate) packets: u64,
    pub(crate) bad: u64,
}

/// The counts of a whole file, and the number of bytes of an incomplete last frame, 0 if there is none.
#[derive(Clone, Copy)]
pub(crate) struct Summary {
    pub(crate) counts: Counts,
    pub(crate) cut: u64,
}

impl FrameCounts {
    /// Those of a frame whose header is refused.
    pub(crate) fn none() -> FrameCounts
        ensures { result ≡ record { delivered = 0; packets = 0; bad = 0 } }
    {
        FrameCounts {
            delivered: 0,
            packets: 0,
            bad: 0,
        }
    }
}

impl Counts {
    /// No frames.
    pub(crate) fn none() -> Counts
        ensures { result ≡ record { frames = 0; delivered = 0; packets = 0; bad = 0 } }
    {
        Counts {
            frames: 0,
            delivered: 0,
            packets: 0,
            bad: 0,
        }
    }

    /// The counts with those of one more frame.
    pub(crate) fn with_frame(self, frame: FrameCounts) -> Counts
        requires frames { (self.frames < 2 ^ 62) × (self.delivered < 2 ^ 62) }
        requires packets { (self.packets < 2 ^ 62) × (self.bad < 2 ^ 62) }
        requires few { IsFew frame }
        ensures { result ≡ counted self frame }
    {
        Counts {
            frames: self.frames + 1,
            delivered: self.delivered + frame.delivered,
            packets: self.packets + frame.packets,
            bad: self.bad + frame.bad,
        }
    }
}
