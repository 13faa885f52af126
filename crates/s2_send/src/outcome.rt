//! The result of a run of the transmitter.
ghost use Rattle.std.specs.Prelude.{◌≡◌, ◌≤◌, length};
ghost use Rattle.s2_mode.specs.FaultTexts.{said};
ghost use Rattle.s2_send.specs.FaultTexts.{send_fault_text};
ghost use Rattle.s2_send.specs.Hints.{send_hint, size_told};

use s2_bbframe::{PACKET_BYTES, SYNC};
use s2_mode::FaultText;
use thiserror::Error;

/// How many packets a run accepted, and how many frames it wrote. Dummy frames are not counted.
#[derive(Clone, Copy, Debug, PartialEq, Eq)]
pub struct Counts {
    pub packets: u64,
    pub frames: u64,
}

/// What a refused packet tells about the size of the packets in the stream.
#[derive(Clone, Copy, Debug, PartialEq, Eq)]
pub enum PacketSize {
    /// It tells nothing.
    Unknown,
    /// 192 bytes: the packet comes after a time code of four bytes, or before four bytes.
    Has192,
    /// 204 bytes: the packet comes before 16 bytes of a Reed-Solomon code.
    Has204,
}

impl PacketSize {
    /// What the refused packet of this number, counted from 1, tells. Packets are read as 188 bytes each. So the next one's
    /// 47 hexadecimal is found at byte 16 of packet 2, or at byte 4 of packet 1 or 2.
    pub(crate) fn told(packet: u64, bytes: &[u8; PACKET_BYTES]) -> PacketSize
        ensures { result ≡ size_told packet bytes.now }
    {
        if packet == 2 && bytes[16] == SYNC {
            PacketSize::Has204
        } else if (packet == 1 || packet == 2) && bytes[4] == SYNC {
            PacketSize::Has192
        } else {
            PacketSize::Unknown
        }
    }
}

/// Why a run ended early.
#[derive(Clone, Copy, Debug, PartialEq, Eq, Error)]
#[error("{}", self.text())]
pub enum SendFault {
    /// 1 to 187 bytes were left after the last packet.
    NotWholePacket,
    /// This packet, counted from 1, does not begin with 47 hexadecimal. It may tell that the packets have another size.
    NoSync { packet: u64, size: PacketSize },
    /// A read failed, or the limit of packets was reached.
    Read,
    /// A write failed.
    Write,
}

impl SendFault {
    /// What this fault says.
    pub fn text(self) -> FaultText
        ensures { said result ≡ send_fault_text self }
    {
        match self {
            SendFault::NotWholePacket => FaultText::of("not a whole packet"),
            SendFault::NoSync { packet, .. } => FaultText {
                words: "no sync in packet ",
                number: Some(packet),
            },
            SendFault::Read => FaultText::of("cannot read"),
            SendFault::Write => FaultText::of("cannot write"),
        }
    }
    /// What to do if the refused packet tells that the packets have another size. Empty if it does not, and for the other
    /// faults.
    pub fn hint(self) -> &'static str
        ensures is { result.now ≡ send_hint self }
        ensures short { length result.now ≤ 58 }
    {
        let SendFault::NoSync { size, .. } = self else {
            return "";
        };
        match size {
            PacketSize::Unknown => "",
            PacketSize::Has192 => "192-byte packets: strip the 4 bytes of the time code first",
            PacketSize::Has204 => "204-byte packets: strip the 16 Reed-Solomon bytes first",
        }
    }
}
