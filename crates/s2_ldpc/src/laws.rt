//! Laws of the definitions: each a call that does nothing, whose clause is the law.
ghost use Rattle.s2_ldpc.specs.Encoding.{UniqueLaw};

/// No other codeword begins with the same information bits.
pub fn unique()
    ensures { UniqueLaw }
{}
