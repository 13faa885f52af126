//! What the definitions determine: each a call that does nothing, whose clause is the law.
ghost use Rattle.s2_scan.specs.Laws.{OrientationLaw};

/// The decisions on a symbol that is rotated or conjugated are its decisions, rotated or conjugated, if the symbol is on
/// no diagonal.
pub fn orientations()
    ensures { OrientationLaw }
{}
