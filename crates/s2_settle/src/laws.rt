//! Laws of the definitions: each a call that does nothing, whose clause is the law.
ghost use Rattle.std.specs.Prelude.{◌≡◌};
ghost use Rattle.s2_settle.specs.Laws.{SettledLaw, StartLaw, LayerLaw};
ghost use Rattle.s2_settle.specs.Plain.{settling_scale, bits_a_few, first_end, max_growth};

use crate::limits::{BITS_A_FEW, FIRST_END, MAX_GROWTH, SETTLING_SCALE};

/// A certificate settled for a codeword is strict, and of these values and this word.
pub fn settled()
    ensures { SettledLaw }
{}

/// The rows before any move show the state of checks and members without moves.
pub fn start()
    ensures { StartLaw }
{}

/// If rows and lanes show a state of checks and members, they show its layer after their layer.
pub fn layer()
    ensures { LayerLaw }
{}

/// The program's numbers are those of the rule.
pub fn limits()
    ensures scale { SETTLING_SCALE ≡ settling_scale }
    ensures few { BITS_A_FEW ≡ bits_a_few }
    ensures end { FIRST_END ≡ first_end }
    ensures growth { MAX_GROWTH ≡ max_growth }
{}
