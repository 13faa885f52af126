//! What the definitions determine: each a call that does nothing, whose clause is the law.
ghost use Rattle.s2_names.specs.Names.{NamesLaw};
ghost use Rattle.s2_names.specs.Rates.{LimitsLaw};
ghost use Rattle.s2_names.specs.RateTexts.{OneRateLaw};
ghost use Rattle.s2_names.specs.ModeLines.{AllCodesLaw};

/// A name belongs to one MODCOD.
pub fn names()
    ensures { NamesLaw }
{}

/// The highest symbol rate, [`crate::MAX_RATE`], is that of the definitions.
pub fn limits()
    ensures { LimitsLaw }
{}

/// A text writes one symbol rate.
pub fn rate_texts()
    ensures { OneRateLaw }
{}

/// Each code has its line.
pub fn all_codes()
    ensures { AllCodesLaw }
{}
