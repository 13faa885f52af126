//! Refusals of certificate files.
ghost use Rattle.std.specs.Prelude.{◌≡◌};
ghost use Rattle.s2_certfile.specs.FaultTexts.{certificate_fault_text};
ghost use Rattle.s2_mode.specs.FaultTexts.{said};

use s2_mode::FaultText;
use thiserror::Error;

/// Why a certificate file is refused.
#[derive(Clone, Copy, Debug, PartialEq, Eq, Error)]
#[error("{}", self.text())]
pub enum CertFault {
    /// One of the first five bytes, if it exists, is not that of a certificate of version 1 or 2.
    Magic,
    /// Fewer bytes than the header, or than the header says.
    Cut,
    /// More bytes than the header says.
    Extra,
    /// A scale outside 1 to 4096, a count of shares over 1,555,200, or a soft value outside -511 to 511. Or a padding
    /// bit that is 1, an amount over 2^31 - 1, or a place other than 0 if nothing is moved.
    Range,
    /// Numbers that are no shape.
    Shape,
    /// Memory was refused, for a file that is otherwise accepted.
    NoMemory,
}

impl CertFault {
    /// The text of this fault.
    pub fn text(self) -> FaultText
        ensures { said result ≡ certificate_fault_text self }
    {
        FaultText::of(match self {
            CertFault::Magic => "magic",
            CertFault::Cut => "cut",
            CertFault::Extra => "extra",
            CertFault::Range => "range",
            CertFault::Shape => "shape",
            CertFault::NoMemory => "no memory",
        })
    }
}
