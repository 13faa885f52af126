//! Laws of the definitions: each a call that does nothing, whose clause is the law.
ghost use Rattle.s2_bbframe.specs.Crc.{RemainderLaw};
ghost use Rattle.s2_bbframe.specs.Gaps.{PartsLaw, AcrossLaw};
ghost use Rattle.s2_bbframe.specs.Joining.{RoundTripLaw};
ghost use Rattle.s2_bbframe.specs.Limits.{LimitsLaw};

/// The CRC-8 of bytes is what the division of x^8 times their polynomial by
/// x^8 + x^7 + x^6 + x^4 + x^2 + 1 leaves (EN 302 307-1, 5.1.4).
pub fn remainder()
    ensures { RemainderLaw }
{}

/// The first fields of a data stream give exactly the packets whose closing CRC-8 is in them, and none is incomplete.
/// So all its fields give all its packets.
pub fn round_trip()
    ensures { RoundTripLaw }
{}

/// Parts of a data stream with gaps between them give exactly the packets that are whole in one of the parts, and none
/// is bad. Each part is cut anywhere into data fields whose SYNCD names their first sync place. So a gap loses only
/// the packets that reach across it.
pub fn gaps()
    ensures given { PartsLaw }
    ensures lost { AcrossLaw }
{}

/// The numbers of packets and headers that the code works with, [`crate::PACKET_BYTES`],
/// [`crate::BODY_BYTES`], [`crate::SYNC`], [`crate::PACKET_BITS`], [`crate::NO_SYNCD`],
/// [`crate::MAX_FIELD_BYTES`] and [`crate::PACKETS_ROOM`], are those of the definitions.
pub fn limits()
    ensures { LimitsLaw }
{}
