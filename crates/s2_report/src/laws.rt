//! Laws of the definitions: each a call that does nothing, whose clause is the law.
ghost use Rattle.s2_report.specs.Limits.{LimitsLaw};

/// The maximum length of a line that the code reads, [`crate::MAX_LINE_BYTES`], is that of the definitions.
pub fn limits()
    ensures { LimitsLaw }
{}
