//! Laws of the codes, each the contract of a call that does nothing.
ghost use Rattle.std.specs.Prelude.{◌≡◌, ◌≢◌, ◌+◌, ◌<◌, ◌↔◌, List, Bool, true, false, length, Some, None};
ghost use Rattle.s2_bits.specs.Bits.{differences};
ghost use Rattle.s2_field.specs.Gf14 as gf14;
ghost use Rattle.s2_field.specs.Gf16 as gf16;
ghost use Rattle.s2_mode.specs.Mode.{k_of, t_of};
ghost use Rattle.s2_bch.specs.Generators.{generator_of};
ghost use Rattle.s2_bch.specs.Words.{IsMultiple};
ghost use Rattle.s2_bch.specs.Values.{HasRoots};
ghost use Rattle.s2_bch.specs.Minimal.{IsProductOfMinimals};
ghost use Rattle.s2_bch.specs.Codes.{IsBchWord, IsBchWordOf, IsWithin};
ghost use Rattle.s2_bch.specs.Decoding.{nearest};

use s2_mode::Mode;

/// The generator is the product of the minimal polynomials of a, a^3, .., a^(2t-1)
/// (EN 302 307-1, 5.3.1).
pub fn generators(mode: Mode)
    ensures normal { mode.short ≡ false
        → IsProductOfMinimals gf16.field 16 (t_of mode) gf16.alpha (generator_of mode) }
    ensures short { mode.short ≡ true
        → IsProductOfMinimals gf14.field 14 (t_of mode) gf14.alpha (generator_of mode) }
{
    let _ = mode.t();
}

/// A message has no second word of the code.
pub fn unique(mode: Mode)
    ensures { (message word other : List Bool) → IsBchWordOf mode message word → IsBchWordOf mode message other
        → word ≡ other }
{
    let _ = mode.t();
}

/// A multiple of the generator, so every word of the code, has a, a^2, .., a^(2t) among its roots.
pub fn roots(mode: Mode)
    ensures normal { mode.short ≡ false → (w : List Bool) → IsMultiple (generator_of mode) w
        → HasRoots gf16.field gf16.alpha (t_of mode + t_of mode) w }
    ensures short { mode.short ≡ true → (w : List Bool) → IsMultiple (generator_of mode) w
        → HasRoots gf14.field gf14.alpha (t_of mode + t_of mode) w }
{
    let _ = mode.t();
}

/// Two different words of the code differ in more than 2t places.
pub fn distance(mode: Mode)
    ensures { (u v : List Bool) → IsBchWord mode u → IsBchWord mode v → u ≢ v
        → t_of mode + t_of mode < differences (k_of mode) u v }
{
    let _ = mode.t();
}

/// Decoding is a function. The nearest word of Nbch bits is the one codeword that differs from them
/// in at most t places. It is `None` exactly if there is no such codeword.
pub fn nearest(mode: Mode)
    ensures some { (r v : List Bool) → length r ≡ k_of mode → (nearest mode r ≡ Some v ↔ IsWithin mode r v) }
    ensures none { (r : List Bool) → length r ≡ k_of mode
        → (nearest mode r ≡ None ↔ ((v : List Bool) → IsWithin mode r v → ⊥)) }
{
    let _ = mode.k();
}
