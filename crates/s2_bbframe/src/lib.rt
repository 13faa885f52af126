//! Packets to data fields with their headers, and back (EN 302 307-1, 5.1). A header and its data field are a baseband
//! frame, the standard's BBFRAME, before padding, scrambling and coding.
//!
//! [`crc8`] is the remainder of the bytes' polynomial; [`laws::remainder`] says so of a division.
//!
//! A [`Slicer`] takes packets and gives the fields of their data stream: each as soon as it is full, and the last one
//! after [`Slicer::close`]. After any packets and fields, the taken fields and the bytes that it still holds are the
//! stream.
//!
//! [`Header::write`] writes a field's header, the BBHEADER. [`Header::read`] accepts exactly the headers of the
//! profile, and returns why it refuses another. A written header is read unchanged.
//!
//! A [`Joiner`] reassembles the packets of delivered fields in the caller's buffer. [`laws::round_trip`] says that the
//! first fields of a stream give exactly the packets whose CRC-8 is in them. [`laws::gaps`] says the same of fields cut
//! anywhere, and that a gap loses only the packets that reach across it. Only [`Slicer::new`] takes memory.
//!
//! ```
//! let mut slicer = Slicer::new(alloc, mode)?;
//! slicer.put(&packet)?;
//! slicer.close();
//! let header = slicer.take(0, &mut field)?;
//! header.write(&mut bytes);
//! assert_eq!(Header::read(&bytes, mode), Ok(header));
//! let Fed { good, bad, incomplete } = Joiner::new().feed(&header, &field, &mut packets);
//! out.write(&packets[..good * PACKET_BYTES])?;
//! ```
#![tactic(auto)]

mod bodies;
mod crc;
mod header;
mod joiner;
pub mod laws;
mod limits;
mod slicer;
mod table;

pub use crc::crc8;
pub use header::{Header, HeaderFault};
pub use joiner::{Fed, Joiner};
pub use limits::{
    BODY_BYTES, MAX_FIELD_BYTES, NO_SYNCD, PACKET_BITS, PACKET_BYTES, PACKETS_ROOM, SYNC,
};
pub use slicer::{NoSync, Slicer, field_bytes};
