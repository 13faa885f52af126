//! The transmitter after a refusal and at its limit. The sum of the symbols is that of the modulator in plain C.
use super::ends::{ALL, Sides, link_of, reader_of, run, taken, transmitter_of, writer_of};
use s2_modem::Transmitter;
use s2_send::{Counts, PacketSize, SendFault};
use std::alloc::Global;
use std::test::Fail;

/// A sum of bytes in which each place counts.
fn sum_of(bytes: &[u8]) -> u64 {
    let mut sum = 0u64;
    for byte in bytes {
        sum = sum.wrapping_mul(31).wrapping_add(u64::from(*byte));
    }
    sum
}

/// Whether a transmitter has this result on a stream, and writes symbols of this sum.
fn sends(
    alloc: Global,
    transmitter: &mut Transmitter<'_>,
    packets: &[u8],
    want: Result<Counts, SendFault>,
    sum: u64,
) -> bool {
    let mut symbols = writer_of(alloc, ALL);
    let answer = run(transmitter, &mut reader_of(packets, ALL), &mut symbols);
    sum_of(&taken(symbols)) == sum && answer == want
}

/// Whether one transmitter refuses two streams, sends a good one then, and stops at its limit.
fn begins_anew(alloc: Global, transmitter: &mut Transmitter<'_>) -> bool {
    let mut no_sync = [0x47; 376];
    no_sync[188] = 0x48;
    let refused = Err(SendFault::NoSync {
        packet: 2,
        size: PacketSize::Has204,
    });
    let cut = Err(SendFault::NotWholePacket);
    let mut zeros = [0; 188];
    zeros[0] = 0x47;
    let good = Ok(Counts {
        packets: 1,
        frames: 1,
    });
    let begins = sends(alloc, transmitter, &no_sync, refused, 0)
        && sends(alloc, transmitter, &[0x47; 187], cut, 0)
        && sends(alloc, transmitter, &zeros, good, 3895363348699734475);
    transmitter.limit(1);
    begins && sends(alloc, transmitter, &[0x47; 376], Err(SendFault::Read), 0)
}

/// The same of a new transmitter of a link.
fn new_begins_anew(alloc: Global, link: &Sides) -> Result<bool, Fail> {
    match transmitter_of(alloc, link) {
        Ok(mut transmitter) => Ok(begins_anew(alloc, &mut transmitter)),
        Err(fault) => Err(Fail::from(fault)),
    }
}

#[test]
fn begins_a_new_stream_after_a_refusal_and_keeps_its_limit(rt: HostRuntime) -> Result<(), Fail> {
    let link = link_of(rt.alloc(), false).ok_or("no link")?;
    assert!(rt; new_begins_anew(rt.alloc(), &link)?);
    Ok(())
}
