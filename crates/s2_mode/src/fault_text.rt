//! The text of faults.
ghost use Rattle.std.specs.Prelude.{◌≡◌, Some, None};

use std::fmt::{Display, Formatter, Result, Write};

/// The text of a fault: words, and for some faults then the number of a line or a packet.
#[derive(Clone, Copy, Debug, PartialEq, Eq)]
pub struct FaultText {
    pub words: &'static str,
    pub number: Option<u64>,
}

impl FaultText {
    /// These words alone.
    pub fn of(words: &'static str) -> FaultText
        ensures { result ≡ record { words = words.entry; number = None } }
    {
        FaultText {
            words,
            number: None,
        }
    }

    /// These words, and after them the number of a line.
    pub fn in_line(words: &'static str, line: u64) -> FaultText
        ensures { result ≡ record { words = words.entry; number = Some line } }
    {
        FaultText {
            words,
            number: Some(line),
        }
    }
}

impl Display for FaultText {
    fn fmt<W: Write>(&self, f: &mut Formatter<W>) -> Result {
        match self.number {
            Some(number) => write!(f, "{}{number}", self.words),
            None => f.write_str(self.words),
        }
    }
}
