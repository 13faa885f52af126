//! The law of the equalizer, which follows from its definition. It is the clause of a call that does nothing.
ghost use Rattle.s2_equalize.specs.Laws.{ExactLaw};

/// A frame arrives without noise, times a gain that is a whole number, and rotated by quarter turns. If nothing overflows, the
/// equalizer returns the frame that was sent.
pub fn exact()
    ensures { ExactLaw }
{}
