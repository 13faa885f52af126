//! Laws of the format, each the contract of a function that does nothing.
ghost use Rattle.std.specs.Prelude.{◌≡◌};
ghost use Rattle.s2_certfile.specs.declared.limits.TheConstants.{MAX_SCALE, MAX_SHARES};
ghost use Rattle.s2_certfile.specs.Format.{ReadBackLaw, ShapeLaw};
ghost use Rattle.s2_certfile.specs.Limits.{max_scale, max_shares};

/// The bytes written for a file's contents are accepted, as the same contents.
pub fn read_back()
    ensures { ReadBackLaw }
{}

/// The test on the numbers of a file's header accepts exactly the shapes.
pub fn shapes()
    ensures { ShapeLaw }
{}

/// The limits are those of the format.
pub fn limits()
    ensures scale { MAX_SCALE ≡ max_scale }
    ensures shares { MAX_SHARES ≡ max_shares }
{}
