//! The text of another crate's fault.
ghost use Rattle.std.specs.Prelude.{◌≡◌, ◌++◌};
ghost use Rattle.s2_mode.specs.FaultTexts.{said};

use s2_mode::FaultText;
use std::marker::Model;

/// The subject of a fault, and its text. Its value is the bytes of both.
pub struct Reason {
    subject: &'static str,
    text: FaultText,
}

impl Drop for Reason {
    fn drop(self) {
        let Reason {
            subject: _,
            text: _,
        } = self;
    }
}

impl Model for Reason {
    ghost use Rattle.std.specs.Prelude.{ℕ, List, ◌++◌};
    ghost use Rattle.s2_mode.specs.FaultTexts.{said};

    ghost Value = { List ℕ };

    ghost view = { λ t. t.subject.now ++ said t.text };
}

impl Reason {
    /// This text after its subject.
    pub fn new(subject: &'static str, text: FaultText) -> Reason
        ensures { result ≡ subject.entry.now ++ said text }
    {
        Reason { subject, text }
    }

    /// Both.
    pub(crate) fn parts(self) -> (&'static str, FaultText)
        ensures { result.0.now ++ said result.1 ≡ self }
    {
        let Reason { subject, text } = self;
        (subject, text)
    }
}
