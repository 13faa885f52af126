//! A law of the interleaver.
ghost use Rattle.s2_map.specs.Permutation.{InterleaverLaw};

/// Each bit of a codeword is sent as exactly one bit of the payload (EN 302 307-1, 5.3.3).
pub fn interleaver()
    ensures { InterleaverLaw }
{}
