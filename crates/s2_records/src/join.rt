//! `join`: joins the BBFRAMEs of a file.
ghost use Rattle.std.specs.Prelude.{◌≡◌, ◌≢◌, ◌+◌, ◌≤◌, false, length};
ghost use Rattle.s2_mode.specs.Counts.{CanCount};
ghost use Rattle.s2_mode.specs.Mode.{HasCodeSizes};
ghost use Rattle.s2_mode.specs.Streams.{streams_by};
ghost use Rattle.s2_bbframe.specs.Limits.{max_field_bytes, packets_room};
ghost use Rattle.s2_io.specs.Screens.{CanShow};
ghost use Rattle.s2_records.specs.Frames.{frame_bytes};
ghost use Rattle.s2_records.specs.Joining.{Begins, Causes, JoinExits, Joins, JoinsKnown, Runs, piped_by};

use crate::frames::frame_bytes;
use crate::join_report::print_report;
use crate::joining::join_all;
use s2_bbframe::PACKETS_ROOM;
use s2_io::{Console, Destination, Exit, Fault, Output};
use s2_mode::{CountedRead, CountedWrite, Mode, StreamFault};
use std::alloc::Global;

/// Joins all frames, and prints the report.
fn join_frames<R: CountedRead, W: CountedWrite, O: CountedWrite>(
    mode: Mode,
    frame: &mut [u8],
    buffer: &mut [u8],
    bbframes: &mut R,
    packets: &mut W,
    out: &mut O,
) -> Result<Exit, Fault<'static>>
    requires bbframes { CanCount (R.count bbframes.old) }
    requires packets { CanCount (W.count packets.old) }
    requires out { CanCount (O.count out.old) }
    requires sizes { HasCodeSizes mode }
    requires frame { length frame.old ≡ frame_bytes mode }
    requires room { packets_room max_field_bytes ≤ length buffer.old }
    ensures joins { let ends = streams_by R.remaining R.count W.contents W.count O.contents O.count in
        Joins mode (ends bbframes.old packets.old out.old) (ends bbframes.new packets.new out.new) result }
    ensures causes { let ends = streams_by R.remaining R.count W.contents W.count O.contents O.count in
        Causes (ends bbframes.old packets.old out.old) (ends bbframes.new packets.new out.new) result }
{
    match join_all(mode, frame, buffer, bbframes, packets) {
        Ok(summary) => print_report(mode, summary, out),
        Err(StreamFault::Read) => Err(Fault::Read),
        Err(StreamFault::Write) => Err(Fault::Write),
    }
}

/// Truncates the packets' file, and joins.
fn join_begun<R: CountedRead, W: Output, O: CountedWrite>(
    mode: Mode,
    buffer: &mut [u8],
    bbframes: &mut R,
    packets: &mut Destination<W>,
    out: &mut O,
) -> Result<Exit, Fault<'static>>
    requires bbframes { CanCount (R.count bbframes.old) }
    requires packets { CanCount (W.count packets.old.to) }
    requires unbegun { packets.old.begun ≡ false }
    requires out { CanCount (O.count out.old) }
    requires room { frame_bytes mode + packets_room max_field_bytes ≤ length buffer.old }
    ensures joins { let ends = streams_by R.remaining R.count W.contents W.count O.contents O.count in
        Begins mode packets.new.begun (ends bbframes.old packets.old.to out.old) (ends bbframes.new packets.new.to out.new) result }
    ensures causes { let ends = streams_by R.remaining R.count W.contents W.count O.contents O.count in
        Causes (ends bbframes.old packets.old.to out.old) (ends bbframes.new packets.new.to out.new) result }
{
    let (frame, room) = buffer.split_at_mut(frame_bytes(mode));
    match packets.truncate() {
        Ok(()) => join_frames(mode, frame, room, bbframes, packets.writer(), out),
        Err(_) => Err(Fault::Write),
    }
}

/// Allocates memory for a frame and the packets that it completes, and joins.
fn join_files<R: CountedRead, W: Output, O: CountedWrite>(
    alloc: Global,
    mode: Mode,
    bbframes: &mut R,
    packets: &mut Destination<W>,
    out: &mut O,
) -> Result<Exit, Fault<'static>>
    requires bbframes { CanCount (R.count bbframes.old) }
    requires packets { CanCount (W.count packets.old.to) }
    requires unbegun { packets.old.begun ≡ false }
    requires out { CanCount (O.count out.old) }
    ensures runs { let ends = streams_by R.remaining R.count W.contents W.count O.contents O.count in
        Runs mode packets.new.begun (ends bbframes.old packets.old.to out.old) (ends bbframes.new packets.new.to out.new) result }
    ensures causes { let ends = streams_by R.remaining R.count W.contents W.count O.contents O.count in
        Causes (ends bbframes.old packets.old.to out.old) (ends bbframes.new packets.new.to out.new) result }
{
    match vec![in alloc; 0u8; frame_bytes(mode) + PACKETS_ROOM] {
        Ok(mut buffer) => join_begun(mode, &mut buffer, bbframes, packets, out),
        Err(_) => Err(Fault::NoMemory),
    }
}

/// `join`: writes the packets of a file of BBFRAMEs of a mode, and prints the report. The packets of a frame are written
/// before the next frame is read. Exit 0 if each frame was delivered, no packet was bad, and no frame is cut; else 2.
///
/// - `no memory`: nothing was read, and the packets' file is not truncated.
/// - `cannot read`: a read failed, or [`crate::MAX_FRAMES`] frames came. The packets of the whole frames before it are
///   written, and nothing is printed.
/// - `cannot write`: the packets' file cannot be truncated, or a write failed. The packets of all frames before that are
///   written, or the report could not be printed.
pub fn join_command<R: CountedRead, W: Output, O: CountedWrite, E: CountedWrite>(
    alloc: Global,
    mode: Mode,
    bbframes: &mut R,
    packets: &mut Destination<W>,
    console: &mut Console<O, E>,
) -> Exit
    requires bbframes { CanCount (R.count bbframes.old) }
    requires packets { CanCount (W.count packets.old.to) }
    requires unbegun { packets.old.begun ≡ false }
    requires console { CanShow console.old }
    ensures quiet { result ≢ Exit.Fault → console.new.errors_failed ≡ console.old.errors_failed }
    ensures whole { result ≢ Exit.Fault → console.new.output_failed ≡ console.old.output_failed }
    ensures known { let ends = piped_by R.remaining R.count W.contents W.count in result ≢ Exit.Fault → JoinsKnown mode
        (ends bbframes.old packets.old.to) (ends bbframes.new packets.new.to) console.old console.new result }
    ensures run { let ends = piped_by R.remaining R.count W.contents W.count in JoinExits mode packets.new.begun
        (ends bbframes.old packets.old.to) (ends bbframes.new packets.new.to) console.old console.new result }
{
    let ended = join_files(alloc, mode, bbframes, packets, &mut console.output);
    console.finish(ended)
}
