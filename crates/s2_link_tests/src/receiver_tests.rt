//! A receiver that gets its first symbols room by room, and the others by calls that read and write: its steps, and its
//! state after a fault.
use super::ends::{
    ALL, Reader, Sides, Writer, feed, reader_of, receiver_of, step, taken, writer_of,
};
use super::samples::{Sample, two_frames};
use s2_check::Verdict;
use s2_modem::Receiver;
use s2_receive::Fault;
use s2_report::{Outcome, Report, Step};
use std::alloc::Global;
use std::test::Fail;

/// A case of the two frames. First the rooms that are filled, and then the reads, writes of packets and writes of lines that
/// succeed. Then the number of steps that come, and the fault after them. Last the numbers of bytes: that were given by
/// rooms, of packets, and of lines.
type Case = (u32, [u64; 3], usize, Fault, [usize; 3]);

/// A frame's bytes.
const SIZE: usize = 32760;

/// A frame's packet comes before its line. A call reads once, and the third one finds the end.
const CASES: [Case; 9] = [
    (0, [ALL, ALL, ALL], 9, Fault::Failed, [0, 376, 96]),
    (0, [0, ALL, ALL], 0, Fault::Read, [0, 0, 0]),
    (0, [1, ALL, ALL], 1, Fault::Read, [0, 188, 26]),
    (0, [ALL, 0, ALL], 0, Fault::Write, [0, 0, 0]),
    (0, [ALL, ALL, 1], 1, Fault::Write, [0, 376, 26]),
    (0, [ALL, ALL, 2], 2, Fault::Write, [0, 376, 55]),
    (1, [0, ALL, ALL], 1, Fault::Read, [SIZE, 188, 0]),
    (1, [ALL, ALL, 0], 1, Fault::Write, [SIZE, 376, 0]),
    (3, [ALL, ALL, ALL], 9, Fault::Failed, [2 * SIZE, 376, 0]),
];

/// A delivered frame in which nothing was wrong.
fn frame(number: u64, at: u64) -> Step {
    Step::Frame(Report {
        number,
        at,
        verdict: Verdict::Sole,
        outcome: Outcome::Delivered { fixed: 0 },
        figures: None,
        turn: 0,
    })
}

/// The step or the fault of a number, counted from 0. After the fault each call fails.
fn answer_at(case: &Case, number: usize) -> Result<Step, Fault> {
    if number > case.2 {
        return Err(Fault::Failed);
    }
    match number {
        _ if number == case.2 => Err(case.3),
        0 => Ok(frame(1, 0)),
        1 => Ok(frame(2, 8190)),
        _ => Ok(Step::End),
    }
}

/// The numbers of bytes that were given by rooms, of the steps that came, and of the bytes of their packets.
#[derive(Clone, Copy)]
struct Came {
    given: usize,
    steps: usize,
    packets: usize,
}

/// Gives a receiver bytes room by room. `None` if a step is another one.
fn feed_rooms(receiver: &mut Receiver<'_>, bytes: &[u8], case: &Case) -> Option<Came> {
    let mut came = Came {
        given: 0,
        steps: 0,
        packets: 0,
    };
    let mut rest = bytes;
    for _ in 0..case.0 {
        let (count, step) = feed(receiver, rest);
        rest = &rest[count..];
        came.given = came.given.saturating_add(count);
        if let Some(step) = step {
            if Ok(step) != answer_at(case, came.steps) {
                return None;
            }
            came.steps = came.steps.saturating_add(1);
            came.packets = came.packets.saturating_add(receiver.packets().len());
        }
    }
    Some(came)
}

/// Whether five calls after a number of steps have these results.
fn are_next(
    receiver: &mut Receiver<'_>,
    symbols: &mut Reader<'_>,
    packets: &mut Writer,
    report: &mut Writer,
    case: &Case,
    steps: usize,
) -> bool {
    for more in 0..5usize {
        let number = steps.saturating_add(more);
        if step(receiver, symbols, packets, report) != answer_at(case, number) {
            return false;
        }
    }
    true
}

/// Whether a receiver that got these symbols by rooms goes on so with the others.
fn goes_on(
    alloc: Global,
    receiver: &mut Receiver<'_>,
    bytes: &[u8],
    case: &Case,
    came: Came,
) -> bool {
    let mut symbols = reader_of(&bytes[came.given.min(bytes.len())..], case.1[0]);
    let mut packets = writer_of(alloc, case.1[1]);
    let mut report = writer_of(alloc, case.1[2]);
    let are = are_next(
        receiver,
        &mut symbols,
        &mut packets,
        &mut report,
        case,
        came.steps,
    );
    let packets = came.packets.saturating_add(taken(packets).len());
    [came.given, packets, taken(report).len()] == case.4 && are
}

/// Whether a receiver does so. After a fault and after the end it needs no bytes, and after a fault no step comes.
fn does_so(alloc: Global, receiver: &mut Receiver<'_>, bytes: &[u8], case: &Case) -> bool {
    match feed_rooms(receiver, bytes, case) {
        Some(came) => {
            let last = if case.2 > 5 { Some(Step::End) } else { None };
            goes_on(alloc, receiver, bytes, case, came)
                && receiver.room() == 0
                && feed(receiver, &[]).1 == last
        }
        None => false,
    }
}

/// The same of a new receiver.
fn new_does_so(alloc: Global, link: &Sides, bytes: &[u8], case: &Case) -> Result<bool, Fail> {
    match receiver_of(alloc, link) {
        Ok(mut receiver) => Ok(does_so(alloc, &mut receiver, bytes, case)),
        Err(fault) => Err(Fail::from(fault)),
    }
}

/// Whether a new receiver does so in each case.
fn do_so(alloc: Global, sample: &Sample) -> Result<bool, Fail> {
    for case in &CASES {
        if !new_does_so(alloc, &sample.link, &sample.symbols, case)? {
            return Ok(false);
        }
    }
    Ok(true)
}

#[test]
fn each_call_fails_after_a_fault(rt: HostRuntime) -> Result<(), Fail> {
    let sample = two_frames(rt.alloc())?;
    assert!(rt; do_so(rt.alloc(), &sample)?);
    Ok(())
}
