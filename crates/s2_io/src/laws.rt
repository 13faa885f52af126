//! Laws of the definitions: each a call that does nothing, whose clause is the law.
ghost use Rattle.s2_io.specs.Lines.{LimitsLaw};

/// The room of a line, [`crate::LINE_ROOM`], is that of the definitions.
pub fn limits()
    ensures { LimitsLaw }
{}
