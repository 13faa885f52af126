//! Laws of the definitions: each a call that does nothing, whose clause is the law.
ghost use Rattle.s2_matrix.specs.Layers.{LayerLaw};
ghost use Rattle.s2_matrix.specs.Relation.{MemberLaw};

/// A bit is a member of a check exactly if the standard puts it there.
pub fn members()
    ensures { MemberLaw }
{}

/// The entries of a layer, and the parity bits, show exactly the members of each of its checks.
pub fn layers()
    ensures { LayerLaw }
{}
