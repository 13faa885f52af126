//! A small link with the symbols of packets on it.
use super::ends::{ALL, Sides, link_of, reader_of, run, taken, transmitter_of, writer_of};
use s2_modem::Transmitter;
use std::alloc::Global;
use std::test::Fail;

/// The packet of a number, whose bytes count in steps of 7 from there on.
fn packet_of(number: u8) -> [u8; 188] {
    let mut packet = [0x47u8; 188];
    for i in 0..187usize {
        packet[i + 1] = ((7 * i + usize::from(number) + 1) % 256) as u8;
    }
    packet
}

/// The packets of the numbers 0 and 1.
pub(crate) fn two_packets() -> [[u8; 188]; 2] {
    [packet_of(0), packet_of(1)]
}

/// The symbols of the two packets by a transmitter.
fn symbols_by(alloc: Global, transmitter: &mut Transmitter<'_>) -> Result<Vec<u8>, Fail> {
    let packets = two_packets();
    let mut symbols = writer_of(alloc, ALL);
    match run(
        transmitter,
        &mut reader_of(packets.as_flattened(), ALL),
        &mut symbols,
    ) {
        Ok(_) => Ok(taken(symbols)),
        Err(fault) => Err(Fail::from(fault)),
    }
}

/// The symbols of the two packets on a link.
fn symbols_of(alloc: Global, link: &Sides) -> Result<Vec<u8>, Fail> {
    let mut transmitter = transmitter_of(alloc, link)?;
    symbols_by(alloc, &mut transmitter)
}

/// A link and symbols on it.
pub(crate) struct Sample {
    pub(crate) link: Sides,
    pub(crate) symbols: Vec<u8>,
}

impl Drop for Sample {
    fn drop(self) {
        let Sample {
            link: _,
            symbols: _,
        } = self;
    }
}

/// The link of QPSK 1/4 in short frames, and the symbols of two packets on it.
pub(crate) fn two_frames(alloc: Global) -> Result<Sample, Fail> {
    let link = link_of(alloc, true).ok_or("no link")?;
    let symbols = symbols_of(alloc, &link)?;
    Ok(Sample { link, symbols })
}
