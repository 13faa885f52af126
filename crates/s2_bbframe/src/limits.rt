//! The constants of packets and of their fields' headers.

/// The bytes of a packet (ISO/IEC 13818-1).
pub const PACKET_BYTES: usize = 188;

/// The bytes of a packet's body, after its sync byte.
pub const BODY_BYTES: usize = 187;

/// The sync byte, with which a packet begins: SYNC of a header.
pub const SYNC: u8 = 0x47;

/// The bits of a packet: UPL of a header.
pub const PACKET_BITS: u16 = 1504;

/// SYNCD of a header whose field has no place for a CRC-8.
pub const NO_SYNCD: u16 = 65535;

/// The most bytes of a data field, since DFL of a header is a number of bits below 2^16.
pub const MAX_FIELD_BYTES: usize = 8191;

/// The most bytes of the packets that a data field completes, with the body that is held before it.
pub const PACKETS_ROOM: usize = BODY_BYTES + MAX_FIELD_BYTES;
