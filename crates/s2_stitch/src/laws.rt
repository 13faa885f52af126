//! Laws of stitching.
ghost use Rattle.s2_stitch.specs.Laws.{MadeTrueLaw, UncertifiedLaw};
ghost use Rattle.s2_stitch.specs.Records.{ReadAgainLaw, SameRecordsLaw, WrittenLaw};

/// Records that are written are read again, and no others.
pub fn read_again()
    ensures one { ReadAgainLaw }
    ensures all { WrittenLaw }
    ensures no_others { SameRecordsLaw }
{}

/// A record is true if it has the verdict, the bits, the certificate and the rounds by which the frame at its position was
/// decided.
pub fn made_true()
    ensures { MadeTrueLaw }
{}

/// A receiver that drops the certificates of its decisions has the same lines and packets. So records without certificates
/// give the same report and the same packets.
pub fn without_certificates()
    ensures { UncertifiedLaw }
{}
