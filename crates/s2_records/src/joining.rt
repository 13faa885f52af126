//! The loop over the BBFRAMEs of a file.
ghost use Rattle.std.specs.Prelude.{◌≡◌, ◌≢◌, ◌+◌, ◌<◌, ◌≤◌, Err, IfOk, IsErrOf, OnErr, OnOk, length};
ghost use Rattle.std.specs.Io.KnownBytes.{Appends};
ghost use Rattle.s2_mode.specs.Counts.{CanCount, CountsFault};
ghost use Rattle.s2_mode.specs.Mode.{HasCodeSizes};
ghost use Rattle.s2_mode.specs.Pieces.{AppendsPart};
ghost use Rattle.s2_bbframe.specs.Joining.{step};
ghost use Rattle.s2_bbframe.specs.Limits.{max_field_bytes, packets_room};
ghost use Rattle.s2_receive.specs.Laws.{joined};
ghost use Rattle.s2_records.specs.Counting.{IsFew, counts_by};
ghost use Rattle.s2_records.specs.Frames.{frame_bytes, event_of};
ghost use Rattle.s2_records.specs.Joining.{JoinsBy, piped_by};
ghost use Rattle.s2_records.specs.Limits.{max_frames};

use crate::frames::join_frame;
use crate::join_counts::{Counts, FrameCounts, Summary};
use crate::limits::MAX_FRAMES;
use s2_bbframe::{Joiner, PACKET_BYTES};
use s2_mode::{CountedRead, CountedWrite, Mode, StreamFault, WriteFault, read_full, write_full};

/// Joins a BBFRAME on, and writes the packets that it completes, with one write if the writer takes them whole.
fn write_frame<W: CountedWrite>(
    mode: Mode,
    joiner: &mut Joiner,
    frame: &[u8],
    buffer: &mut [u8],
    writer: &mut W,
) -> Result<FrameCounts, WriteFault>
    requires writer { CanCount (W.count writer.old) }
    requires sizes { HasCodeSizes mode }
    requires frame { length frame.now ≡ frame_bytes mode }
    requires room { packets_room max_field_bytes ≤ length buffer.old }
    ensures held { joiner.new ≡ (step joiner.old (event_of mode frame.now)).held }
    ensures counts { IfOk result (λ c. c ≡ counts_by mode joiner.old frame.now) }
    ensures few { IfOk result IsFew }
    ensures written { OnOk result (Appends (W.contents writer.old) (W.contents writer.new) (joined (step joiner.old (event_of mode frame.now)).good)) }
    ensures part { OnErr result (AppendsPart (joined (step joiner.old (event_of mode frame.now)).good) (W.contents writer.old) (W.contents writer.new)) }
    ensures cause { CountsFault (W.count writer.old) (W.count writer.new) result }
    ensures size { length buffer.new ≡ length buffer.old }
{
    let counts = join_frame(mode, joiner, frame, buffer);
    write_full(writer, &buffer[..PACKET_BYTES * counts.packets as usize])?;
    Ok(counts)
}

/// Joins the BBFRAMEs of a reader up to its end, and writes the packets of each frame before the next one is read.
/// `Read`: a read failed, or [`MAX_FRAMES`] frames came. `Write`: a write failed. It allocates nothing. `frame` has the
/// bytes of a frame, and `buffer` room for the packets that any frame completes.
pub(crate) fn join_all<R: CountedRead, W: CountedWrite>(
    mode: Mode,
    frame: &mut [u8],
    buffer: &mut [u8],
    reader: &mut R,
    writer: &mut W,
) -> Result<Summary, StreamFault>
    requires reader { CanCount (R.count reader.old) }
    requires writer { CanCount (W.count writer.old) }
    requires sizes { HasCodeSizes mode }
    requires frame { length frame.old ≡ frame_bytes mode }
    requires room { packets_room max_field_bytes ≤ length buffer.old }
    ensures joins { let ends = piped_by R.remaining R.count W.contents W.count in
        JoinsBy mode (ends reader.old writer.old) (ends reader.new writer.new) result }
    ensures no_read { result ≢ Err StreamFault.Read → R.count reader.new ≡ R.count reader.old }
    ensures few { IfOk result (λ s. s.counts.frames < max_frames) }
{
    let mut joiner = Joiner::new();
    let mut counts = Counts::none();
    'frames: for _taken in 0..MAX_FRAMES {
        let Ok(n) = read_full(reader, frame) else {
            return Err(StreamFault::Read);
        };
        if n < frame.len() {
            let cut = n as u64;
            return Ok(Summary { counts, cut });
        }
        let Ok(made) = write_frame(mode, &mut joiner, frame, buffer, writer) else {
            return Err(StreamFault::Write);
        };
        counts = counts.with_frame(made);
    }
    Err(StreamFault::Read)
}
