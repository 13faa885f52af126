//! Laws of the definitions: each a call that does nothing, whose clause is the law.
ghost use Rattle.std.specs.Prelude.{◌≡◌};
ghost use Rattle.s2_mode.specs.Limits.{max_soft};
ghost use Rattle.s2_minsum.specs.Plain.{max_magnitude, max_message};
ghost use Rattle.s2_minsum.specs.Factors.{FactorsLaw};
ghost use Rattle.s2_minsum.specs.Laws.{DecisionLaw};

use crate::limits::{MAX_MAGNITUDE, MAX_MESSAGE};

/// The hard decision of a state has a bit for each of the code: a one exactly if its posterior is negative.
pub fn decision()
    ensures { DecisionLaw }
{}

/// The program's numbers are those of the rule.
pub fn limits()
    ensures cap { MAX_MAGNITUDE ≡ max_magnitude }
    ensures message { MAX_MESSAGE ≡ max_message }
{}

/// The limits of a factor, [`crate::LEAST_FACTOR`] and [`crate::MAX_FACTOR`], and the default,
/// [`crate::DEFAULT_FACTOR`], are those of the definitions.
pub fn factors()
    ensures { FactorsLaw }
{}
