//! The receiver of symbols in memory. If memory is refused once it reports that, and the same call then succeeds. And the
//! texts of refusals.
use super::ends::{Sides, demodulated, link_of};
use super::samples::{Sample, two_frames, two_packets};
use s2_link::SetupFault;
use s2_modem::DemodFault;
use std::alloc::{AllocError, Global};
use std::test::Fail;

const REPORT: &[u8; 96] =
    b"frame 1 at 0 sole fixed 0\nframe 2 at 8190 sole fixed 0\nend frames 2 delivered 2 packets 2 bad 0\n";

/// Whether packets and report of the two frames are received.
fn are_received(alloc: Global, sample: &Sample) -> bool {
    let (mut packets, mut report) = ([0; 376], [0; 96]);
    let answer = demodulated(
        alloc,
        &sample.link,
        &sample.symbols,
        &mut packets,
        &mut report,
    );
    answer.is_ok() && packets.as_slice() == two_packets().as_flattened() && report == *REPORT
}

/// Whether the fault is returned if there is no room for the second line.
fn are_stopped(alloc: Global, sample: &Sample) -> bool {
    let (mut packets, mut report) = ([0; 376], [0; 30]);
    let answer = demodulated(
        alloc,
        &sample.link,
        &sample.symbols,
        &mut packets,
        &mut report,
    );
    answer == Err(DemodFault::Write)
}

#[test]
fn two_packets_arrive(rt: HostRuntime) -> Result<(), Fail> {
    let sample = two_frames(rt.alloc())?;
    assert!(rt; are_received(rt.alloc(), &sample) && are_stopped(rt.alloc(), &sample));
    Ok(())
}

/// Whether a stream without symbols has its report. If memory is refused once the call reports that, and then succeeds.
fn is_empty(alloc: Global, link: &Sides) -> bool {
    let mut report = [0; 41];
    let answer = match demodulated(alloc, link, &[], &mut [], &mut report) {
        Err(DemodFault::Setup(SetupFault::NoMemory)) => {
            demodulated(alloc, link, &[], &mut [], &mut report)
        }
        answer => answer,
    };
    answer.is_ok() && report == *b"end frames 0 delivered 0 packets 0 bad 0\n"
}

#[test]
fn asks_again_where_memory_is_refused(rt: HostRuntime) -> Result<(), Fail> {
    let link = match link_of(rt.alloc(), true) {
        None => link_of(rt.alloc(), true),
        made => made,
    };
    assert!(rt; is_empty(rt.alloc(), &link.ok_or("no link")?));
    Ok(())
}

const TEXTS: [(DemodFault, &str); 7] = [
    (DemodFault::Setup(SetupFault::OtherShape), "other shape"),
    (
        DemodFault::Setup(SetupFault::BadNumber),
        "no such scrambling number",
    ),
    (
        DemodFault::Setup(SetupFault::BadRollOff),
        "no such roll-off",
    ),
    (
        DemodFault::Setup(SetupFault::BadRounds),
        "no such number of rounds",
    ),
    (
        DemodFault::Setup(SetupFault::BadPasses),
        "no such number of passes",
    ),
    (DemodFault::Setup(SetupFault::NoMemory), "no memory"),
    (DemodFault::Write, "cannot write"),
];

/// Whether a fault is printed so.
fn is_printed(alloc: Global, fault: DemodFault, want: &str) -> Result<bool, AllocError> {
    let text = format!(in alloc; "{fault}")?;
    Ok(text.as_str() == want)
}

#[test]
fn prints_faults(rt: HostRuntime) -> Result<(), Fail> {
    for (fault, want) in &TEXTS {
        assert!(rt; is_printed(rt.alloc(), *fault, want)?);
    }
    Ok(())
}
