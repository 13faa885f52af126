//! The evidence for a decision, and the verdict that it allows.
ghost use Rattle.std.specs.Prelude.{◌≡◌};
ghost use Rattle.s2_judge.specs.Deciding.{verdict_by};
ghost use Rattle.s2_judge.specs.Judging.{verdict_of};

use s2_check::Verdict;

/// The evidence for a decision.
#[derive(Clone, Copy)]
pub(crate) enum Evidence {
    /// The hard decision satisfies every check. The flag: its unsplit certificate is strict.
    HardDecision(bool),
    /// A certificate was found for the bits. The flag: it is strict.
    Found(bool),
    /// The bits satisfy every check, and no certificate was found.
    Checks,
    /// They do not.
    Nothing,
}

/// The verdict by a certificate.
fn verdict_by(strict: bool) -> Verdict
    ensures { result ≡ verdict_by strict }
{
    if strict {
        Verdict::Sole
    } else {
        Verdict::MostLikely
    }
}

impl Evidence {
    /// The verdict that it allows.
    pub(crate) fn verdict(self) -> Verdict
        ensures { result ≡ verdict_of self }
    {
        match self {
            Evidence::HardDecision(strict) => verdict_by(strict),
            Evidence::Found(strict) => verdict_by(strict),
            Evidence::Checks => Verdict::Parity,
            Evidence::Nothing => Verdict::Broken,
        }
    }
}
