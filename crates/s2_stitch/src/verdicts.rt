//! The bytes of verdicts.
ghost use Rattle.std.specs.Prelude.{◌≡◌};
ghost use Rattle.s2_stitch.specs.Records.{verdict_byte, verdict_of};

use s2_check::Verdict;

/// The byte of a verdict in a record, or of an end record.
pub(crate) fn verdict_byte(verdict: Option<Verdict>) -> u8
    ensures { result ≡ verdict_byte verdict }
{
    match verdict {
        Some(Verdict::Sole) => 0,
        Some(Verdict::MostLikely) => 1,
        Some(Verdict::Parity) => 2,
        Some(Verdict::Broken) => 3,
        None => 4,
    }
}

/// The verdict of this byte, which an end record has not. `None` if no record has this byte.
pub(crate) fn verdict_of(byte: u8) -> Option<Option<Verdict>>
    ensures { result ≡ verdict_of byte }
{
    if byte == 0 {
        Some(Some(Verdict::Sole))
    } else if byte == 1 {
        Some(Some(Verdict::MostLikely))
    } else if byte == 2 {
        Some(Some(Verdict::Parity))
    } else if byte == 3 {
        Some(Some(Verdict::Broken))
    } else if byte == 4 {
        Some(None)
    } else {
        None
    }
}
