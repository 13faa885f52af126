//! Laws of the two fields, each the contract of a call that does nothing.
ghost use Rattle.std.specs.Prelude.{◌≡◌};
ghost use Rattle.s2_field.specs.Polynomials.{HasOrder, eval};
ghost use Rattle.s2_field.specs.Gf14 as gf14;
ghost use Rattle.s2_field.specs.Gf16 as gf16;

/// In both fields the order of `alpha` is the number of elements but zero; hence they all are its
/// powers.
pub fn order()
    ensures normal { HasOrder gf16.field gf16.alpha 65535 }
    ensures short { HasOrder gf14.field gf14.alpha 16383 }
{}

/// `alpha` is a root of 1 + x^2 + x^3 + x^5 + x^16 and of 1 + x + x^3 + x^5 + x^14
/// (EN 302 307-1, 5.3.1).
pub fn root()
    ensures normal { eval gf16.field gf16.polynomial gf16.alpha ≡ gf16.field.zero }
    ensures short { eval gf14.field gf14.polynomial gf14.alpha ≡ gf14.field.zero }
{}
