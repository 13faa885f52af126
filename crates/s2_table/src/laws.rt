//! Laws of the definitions, each the contract of a function that does nothing.
ghost use Rattle.s2_table.specs.Rising.{OneRisenLaw, OneAnswerLaw};
ghost use Rattle.s2_table.specs.RowSums.{OneOtherLaw};

/// Rows have one digest, whatever the order within each row: their addresses have one rising order. So rows either have
/// a SHA-256 or not.
pub fn one_digest()
    ensures risen { OneRisenLaw }
    ensures answer { OneAnswerLaw }
{}

/// Rows differ from digests first in one line, or in none.
pub fn one_first()
    ensures { OneOtherLaw }
{}
