//! The counts of a comparison.
ghost use Rattle.std.specs.Prelude.{◌≡◌, ◌<◌, ◌^◌};
ghost use Rattle.s2_compare.specs.Counting.{AreBelow, counted, exit_by, no_counts};

use crate::compared::Compared;
use s2_io::Exit;

/// How many frames were compared, and how many of them got each answer.
#[derive(Clone, Copy)]
pub(crate) struct Counts {
    pub(crate) frames: u64,
    pub(crate) same: u64,
    pub(crate) equal: u64,
    pub(crate) worse: u64,
    pub(crate) no_codeword: u64,
    pub(crate) refused: u64,
    pub(crate) missing: u64,
}

impl Counts {
    /// No frames.
    pub(crate) fn none() -> Counts
        ensures { result ≡ no_counts }
    {
        Counts {
            frames: 0,
            same: 0,
            equal: 0,
            worse: 0,
            no_codeword: 0,
            refused: 0,
            missing: 0,
        }
    }

    /// The counts with one more frame, of this answer.
    pub(crate) fn with(self, answer: Compared) -> Counts
        requires { AreBelow (2 ^ 62) self }
        ensures { result ≡ counted self answer }
    {
        let more = Counts {
            frames: self.frames + 1,
            ..self
        };
        match answer {
            Compared::Same { .. } => Counts {
                same: self.same + 1,
                ..more
            },
            Compared::Equal { .. } => Counts {
                equal: self.equal + 1,
                ..more
            },
            Compared::Worse { .. } => Counts {
                worse: self.worse + 1,
                ..more
            },
            Compared::NoCodeword { .. } => Counts {
                no_codeword: self.no_codeword + 1,
                ..more
            },
            Compared::Refused => Counts {
                refused: self.refused + 1,
                ..more
            },
            Compared::Missing => Counts {
                missing: self.missing + 1,
                ..more
            },
        }
    }

    /// The exit: 0 if all frames are the same.
    pub(crate) fn exit(self) -> Exit
        ensures { result ≡ exit_by self }
    {
        if self.same == self.frames {
            Exit::Fine
        } else {
            Exit::No
        }
    }
}
