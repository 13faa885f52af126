//! Laws, as contracts of functions with an empty body.
ghost use Rattle.s2_audit.specs.Limits.{LimitsLaw};
ghost use Rattle.s2_audit.specs.Turns.{FineLaw};

/// The limit of lines, [`crate::MAX_LINES`], is that of the definitions.
pub fn limits()
    ensures { LimitsLaw }
{}

/// Exit 0 and exit 2 of [`crate::audit_command`] exclude each other: fine files, if all their bytes and bits are known, are as they
/// should be.
pub fn fine()
    ensures { FineLaw }
{}
