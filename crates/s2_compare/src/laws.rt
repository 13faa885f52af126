//! Laws of the definitions: each a call that does nothing, whose clause is the law.
ghost use Rattle.s2_compare.specs.Comparing.{EqualLaw, LikelyLaw, WorseLaw};

/// A device whose word is the certified one, or a codeword that costs as much, decided by maximum likelihood: no codeword
/// costs less.
pub fn likely()
    ensures { LikelyLaw }
{}

/// A device whose word is a codeword that costs more did not decide by maximum likelihood.
pub fn worse()
    ensures { WorseLaw }
{}

/// Another word of the same cost comes only under a certificate that is not strict.
pub fn equal()
    ensures { EqualLaw }
{}
