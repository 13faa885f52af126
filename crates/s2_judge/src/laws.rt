//! Laws of the decision, each the contract of a function that does nothing.
ghost use Rattle.s2_judge.specs.Deciding.{CleanLaw, LikelyLaw, SoleLaw, CertifiedLaw, BrokenLaw, ScatteredLaw};

/// A hard decision that is a codeword is decided, with its unsplit certificate. It is called sole exactly if no soft
/// value is 0.
pub fn clean()
    ensures { CleanLaw }
{}

/// Bits that are called sole or most likely satisfy every check, and no bits that satisfy every check cost less.
pub fn likely()
    ensures { LikelyLaw }
{}

/// Bits that are called sole satisfy every check, and all other bits that satisfy every check cost more.
pub fn sole()
    ensures { SoleLaw }
{}

/// There is a certificate exactly if the bits are called sole or most likely. It is for these values and these bits,
/// and the checker accepts it. It is strict exactly if the bits are called sole.
pub fn certified()
    ensures { CertifiedLaw }
{}

/// Bits satisfy every check exactly if they are not called broken.
pub fn broken()
    ensures { BrokenLaw }
{}

/// If the values are scattered about a codeword, it is decided, and has a certificate.
pub fn scattered()
    ensures { ScatteredLaw }
{}
