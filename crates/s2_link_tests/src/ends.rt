//! Small links, and the reception of a stream. Calls with a large contract are made here, each in a function without a
//! contract that owns nothing. So a test's own proof stays small.
ghost use Rattle.std.specs.Prelude.{◌≤◌, length};

use s2_link::{Setup, SetupFault};
use s2_matrix::Matrix;
use s2_mode::{Counted, Counting, FailAt, InMemory, Mode, Shape};
use s2_modem::{DemodFault, Receiver, Transmitter, demodulate};
use s2_receive::Fault;
use s2_report::{Step, Totals};
use s2_rows::make_rows;
use s2_send::{Counts, SendFault};
use std::alloc::Global;

/// No read or write fails.
pub(crate) const ALL: u64 = u64::MAX;

/// The rounds of a receiver here.
const ROUNDS: u32 = 50;

/// A setup, and the matrix of made rows.
pub(crate) struct Sides {
    pub(crate) setup: Setup,
    pub(crate) matrix: Matrix,
}

impl Drop for Sides {
    fn drop(self) {
        let Sides {
            setup: _,
            matrix: _,
        } = self;
    }
}

/// The checks of a code, by rows of weight 3 that seed 1 makes.
fn matrix_of(alloc: Global, shape: Shape) -> Option<Matrix> {
    match make_rows(alloc, shape, 3, 1) {
        Ok(rows) => Matrix::build(alloc, &rows).ok(),
        Err(_) => None,
    }
}

/// The link of QPSK 1/4 without pilots, of number 0 and roll-off 0.
pub(crate) fn link_of(alloc: Global, short: bool) -> Option<Sides> {
    let mode = Mode::of(1, short, false)?;
    let matrix = matrix_of(alloc, mode.shape())?;
    let setup = Setup {
        mode,
        number: 0,
        roll_off: 0,
    };
    Some(Sides { setup, matrix })
}

/// A reader that fails after a number of reads.
pub(crate) type Reader<'a> = FailAt<InMemory<'a>>;

/// A writer that fails after a number of writes.
pub(crate) type Writer = FailAt<Counting<Vec<u8>>>;

pub(crate) fn reader_of(bytes: &[u8], passes: u64) -> Reader<'_> {
    FailAt::new(InMemory::new(bytes), passes)
}

pub(crate) fn writer_of(alloc: Global, passes: u64) -> Writer {
    FailAt::new(Counting::new(Vec::new(alloc)), passes)
}

/// The bytes that a writer has taken.
pub(crate) fn taken(writer: Writer) -> Vec<u8> {
    writer.into_inner().into_inner()
}

/// The transmitter of a link.
pub(crate) fn transmitter_of<'a>(
    alloc: Global,
    link: &'a Sides,
) -> Result<Transmitter<'a>, SetupFault> {
    Transmitter::new(alloc, link.setup, &link.matrix)
}

/// Runs a transmitter.
pub(crate) fn run(
    transmitter: &mut Transmitter<'_>,
    packets: &mut Reader<'_>,
    symbols: &mut Writer,
) -> Result<Counts, SendFault> {
    if packets.count() == u64::MAX || symbols.count() == u64::MAX {
        return Err(SendFault::Read);
    }
    transmitter.run(packets, symbols)
}

/// The receiver of a link.
pub(crate) fn receiver_of<'a>(alloc: Global, link: &'a Sides) -> Result<Receiver<'a>, SetupFault> {
    Receiver::new(alloc, link.setup, &link.matrix, ROUNDS, 0)
}

/// Calls a receiver once.
pub(crate) fn step(
    receiver: &mut Receiver<'_>,
    symbols: &mut Reader<'_>,
    packets: &mut Writer,
    report: &mut Writer,
) -> Result<Step, Fault> {
    let failed = [symbols.count(), packets.count(), report.count()];
    if failed[0] == u64::MAX || failed[1] == u64::MAX || failed[2] == u64::MAX {
        return Err(Fault::Failed);
    }
    receiver.next(symbols, packets, report)
}

/// Gives a receiver the first of these bytes, up to its room. Returns their number, and the step.
pub(crate) fn feed(receiver: &mut Receiver<'_>, bytes: &[u8]) -> (usize, Option<Step>)
    ensures { result.0 ≤ length bytes.now }
{
    let count = receiver.room().min(bytes.len());
    (count, receiver.advance(&bytes[..count]))
}

/// Receives symbols in memory, and writes packets and lines into these rooms.
pub(crate) fn demodulated(
    alloc: Global,
    link: &Sides,
    symbols: &[u8],
    packets: &mut [u8],
    report: &mut [u8],
) -> Result<Totals, DemodFault> {
    let symbols = &symbols[..symbols.len().min(1 << 30)];
    let (mut packets, mut report) = (Counting::new(packets), Counting::new(report));
    demodulate(
        alloc,
        link.setup,
        &link.matrix,
        ROUNDS,
        0,
        symbols,
        &mut packets,
        &mut report,
    )
}
