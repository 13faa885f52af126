//! Laws of the definitions: each a call that does nothing, whose clause is the law.
ghost use Rattle.s2_link.specs.Limits.{LimitsLaw};

/// The limit that is tested, [`crate::MAX_ROLL_OFF`], is that of the definitions.
pub fn limits()
    ensures { LimitsLaw }
{}
