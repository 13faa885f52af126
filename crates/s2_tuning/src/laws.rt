//! Laws of the definitions: each a call that does nothing, whose clause is the law.
ghost use Rattle.s2_tuning.specs.Limits.{LimitsLaw};

/// The limits that are tested, [`crate::MAX_ROUNDS`] and [`crate::MAX_PASSES`], and the default number of rounds,
/// [`crate::DEFAULT_ROUNDS`], are those of the definitions.
pub fn limits()
    ensures { LimitsLaw }
{}
