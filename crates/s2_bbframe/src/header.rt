//! The BBHEADER, the header of a BBFRAME (EN 302 307-1, 5.1.6).
ghost use Rattle.std.specs.Prelude.{◌≡◌, ◌≤◌, true, Ok};
ghost use Rattle.s2_bbframe.specs.Headers.{is_whole, is_constant_transport, is_packet_stream, header_of};

use crate::crc::crc8;
use crate::limits::{NO_SYNCD, PACKET_BITS, SYNC};
use s2_mode::Mode;
use thiserror::Error;

/// The fields of a BBHEADER that differ from frame to frame. The others are the same in every frame of a transport
/// stream with constant coding and modulation.
#[derive(Clone, Copy, Debug, PartialEq, Eq)]
pub struct Header {
    /// RO: 0 for roll-off 0.35, 1 for 0.25, 2 for 0.20; 3 is reserved, and accepted.
    pub roll_off: u8,
    /// MATYPE-2.
    pub second: u8,
    /// DFL, the length of the data field in bits.
    pub dfl: u16,
    /// SYNCD, the distance in bits from the field's start to the first place for a CRC-8;
    /// [`NO_SYNCD`] if there is none.
    pub syncd: u16,
}

/// Why a header is refused.
#[derive(Clone, Copy, Debug, PartialEq, Eq, Error)]
pub enum HeaderFault {
    /// Its CRC-8 is not that of its nine bytes.
    #[error("bad CRC-8 in a header")]
    BadCrc,
    /// It is not that of a single transport stream with constant coding and modulation.
    #[error("header of another stream")]
    OtherStream,
    /// No frame of the mode has such a data field.
    #[error("bad lengths in a header")]
    BadLengths,
}

// the last byte is the CRC-8 of the others
fn is_whole(bytes: &[u8; 10]) -> bool
    ensures { result ≡ is_whole bytes.now }
{
    crc8(&bytes[..9]) == bytes[9]
}

// MATYPE-1: TS/GS 11, SIS/MIS 1, CCM/ACM 1, ISSYI 0, NPD 0, and any RO
fn is_constant_transport(matype: u8) -> bool
    ensures { result ≡ is_constant_transport matype }
{
    matype / 64 == 3
        && matype / 32 % 2 == 1
        && matype / 16 % 2 == 1
        && matype / 8 % 2 == 0
        && matype / 4 % 2 == 0
}

fn is_packet_stream(bytes: &[u8; 10]) -> bool
    ensures { result ≡ is_packet_stream bytes.now }
{
    is_constant_transport(bytes[0])
        && u16::from_be_bytes([bytes[2], bytes[3]]) == PACKET_BITS
        && bytes[6] == SYNC
}

fn header_of(bytes: &[u8; 10]) -> Header
    ensures { result ≡ header_of bytes.now }
{
    Header {
        roll_off: bytes[0] % 4,
        second: bytes[1],
        dfl: u16::from_be_bytes([bytes[4], bytes[5]]),
        syncd: u16::from_be_bytes([bytes[7], bytes[8]]),
    }
}

impl Header {
    ghost use Rattle.s2_mode.specs.Mode.{Mode as ModeValue};
    ghost use Rattle.s2_bbframe.specs.Headers.{has_valid_lengths, header_of_bytes, header_bytes};

    fn has_valid_lengths(&self, mode: Mode) -> bool
        ensures { result ≡ has_valid_lengths mode self.now }
    {
        let most = mode.kbch() - 80;
        let dfl = usize::from(self.dfl);
        let has_place = self.syncd == NO_SYNCD
            || self.syncd % 8 == 0 && self.syncd < PACKET_BITS && self.syncd < self.dfl;
        dfl % 8 == 0 && dfl <= most && (dfl == 0 || has_place)
    }

    /// Reads the BBHEADER of a frame of this mode (EN 302 307-1, 5.1.6). Refuses, in this order, a
    /// wrong CRC-8, a header of another stream, and lengths that no frame of the mode has.
    pub fn read(bytes: &[u8; 10], mode: Mode) -> Result<Header, HeaderFault>
        ensures { result ≡ header_of_bytes mode bytes.now }
    {
        if !is_whole(bytes) {
            return Err(HeaderFault::BadCrc);
        }
        if !is_packet_stream(bytes) {
            return Err(HeaderFault::OtherStream);
        }
        let header = header_of(bytes);
        if !header.has_valid_lengths(mode) {
            return Err(HeaderFault::BadLengths);
        }
        Ok(header)
    }

    /// Writes the ten bytes of the BBHEADER. Each mode in which its lengths are valid reads them as this
    /// header.
    pub fn write(&self, bytes: &mut [u8; 10])
        requires { self.now.roll_off ≤ 3 }
        ensures bytes { bytes.new ≡ header_bytes self.now }
        ensures accepted { (m : ModeValue) → has_valid_lengths m self.now ≡ true
            → header_of_bytes m bytes.new ≡ Ok self.now }
    {
        let [length, length_low] = self.dfl.to_be_bytes();
        let [distance, distance_low] = self.syncd.to_be_bytes();
        let [packet, packet_low] = PACKET_BITS.to_be_bytes();
        let mut header = [
            0xf0 + self.roll_off,
            self.second,
            packet,
            packet_low,
            length,
            length_low,
            SYNC,
            distance,
            distance_low,
            0,
        ];
        header[9] = crc8(&header[..9]);
        *bytes = header;
    }
}
