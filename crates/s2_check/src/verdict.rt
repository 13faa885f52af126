//! Verdicts on decided bits.
ghost use Rattle.std.specs.Prelude.{◌≡◌, ◌≤◌, length};
ghost use Rattle.s2_check.specs.Verdicts.{verdict_word, is_certified};

/// The verdict on a frame's decided bits. Sole: every other codeword costs more under its soft values. Most likely: no
/// codeword costs less. Parity: they are a codeword. Broken: they are no codeword.
#[derive(Clone, Copy, Debug, PartialEq, Eq)]
pub enum Verdict {
    Sole,
    MostLikely,
    Parity,
    Broken,
}

impl Verdict {
    /// The word by which reports name it.
    pub fn word(self) -> &'static str
        ensures is { result.now ≡ verdict_word self }
        ensures short { length result.now ≤ 11 }
    {
        match self {
            Verdict::Sole => "sole",
            Verdict::MostLikely => "most-likely",
            Verdict::Parity => "parity",
            Verdict::Broken => "broken",
        }
    }

    /// Whether there is a certificate.
    pub fn is_certified(self) -> bool
        ensures { result ≡ is_certified self }
    {
        match self {
            Verdict::Sole | Verdict::MostLikely => true,
            Verdict::Parity | Verdict::Broken => false,
        }
    }
}
