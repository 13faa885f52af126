//! The loop that reads packets, and writes frames.
ghost use Rattle.std.specs.Prelude.{◌≡◌, ◌≢◌, ◌+◌, ◌<◌, Err, IsErrOf, false, []};
ghost use Rattle.s2_mode.specs.Counts.{CanCount, CountsFault};
ghost use Rattle.s2_mode.specs.Streams.{NoneFailed, OneFailed};
ghost use Rattle.s2_bbframe.specs.DataStream.{IsReady};
ghost use Rattle.s2_send.specs.Laws.{ReadFails};
ghost use Rattle.s2_send.specs.Sender.{StopsThere, transmitter_of};
ghost use Rattle.s2_send.specs.Sending.{RunsWith};
ghost use Rattle.s2_send.specs.Running.{ReadsNext, SendsNext};
ghost use Rattle.s2_send.specs.Sinks.{CountsEither};

use crate::outcome::{Counts, SendFault};
use crate::sender::Sender;
use crate::sinks::SendSink;
use s2_bbframe::PACKET_BYTES;
use s2_mode::{CountedRead, CountedWrite, WriteFault, read_full, write_full};

/// Reads the next packet, and gives it to a sender. At the reader's end it ends the stream. Returns whether the reader
/// goes on.
fn read_packet<R: CountedRead>(sender: &mut Sender<'_>, reader: &mut R) -> Result<bool, SendFault>
    requires reader { CanCount (R.count reader.old) }
    requires within { sender.old.stream.packets < sender.old.stream.limit }
    requires held { sender.old.stream.held ≡ [] }
    requires open { sender.old.stream.slicing.closed ≡ false }
    requires not_ready { IsReady sender.old.stream.slicing → ⊥ }
    ensures reads { ReadsNext sender.old sender.new (R.remaining reader.old) (R.remaining reader.new) result }
    ensures read { IsErrOf result SendFault.Read → R.count reader.new ≡ R.count reader.old + 1 }
    ensures no_read { result ≢ Err SendFault.Read → R.count reader.new ≡ R.count reader.old }
    ensures no_write { result ≢ Err SendFault.Write }
{
    let mut packet = [0u8; PACKET_BYTES];
    let Ok(n) = read_full(reader, &mut packet) else {
        return Err(SendFault::Read);
    };
    let _taken = sender.put(&packet[..n])?;
    if n < PACKET_BYTES {
        sender.close()?;
        return Ok(false);
    }
    Ok(true)
}

/// Writes the unit of the next frame, if one can be taken. The sink takes its codeword before. If a write fails, a part of
/// the unit is written; if the sink fails, nothing.
fn send_ready<K: SendSink, W: CountedWrite>(
    sender: &mut Sender<'_>,
    sink: &mut K,
    writer: &mut W,
) -> Result<(), WriteFault>
    requires sink { CanCount (K.count sink.old) }
    requires writer { CanCount (W.count writer.old) }
    ensures sends { SendsNext K.takes K.fails sender.old sender.new sink.old sink.new (W.contents writer.old) (W.contents writer.new) result }
    ensures cause { CountsEither (W.count writer.old) (W.count writer.new) (K.count sink.old) (K.count sink.new) result }
{
    if !sender.take() {
        return Ok(());
    }
    sink.take(sender.codeword())?;
    write_full(writer, sender.symbols())
}

/// Sends the packets of a reader, up to its end, as frames of a new stream. The sink takes the codeword of each frame
/// before the frame is written.
pub(crate) fn send_all<R: CountedRead, K: SendSink, W: CountedWrite>(
    sender: &mut Sender<'_>,
    reader: &mut R,
    sink: &mut K,
    writer: &mut W,
) -> Result<Counts, SendFault>
    requires reader { CanCount (R.count reader.old) }
    requires sink { CanCount (K.count sink.old) }
    requires writer { CanCount (W.count writer.old) }
    ensures runs { RunsWith K.takes K.fails (transmitter_of sender.old) (ReadFails sender.old.stream.limit (R.count reader.old) (R.count reader.new))
        (R.remaining reader.old) (R.remaining reader.new) (W.contents writer.old) (W.contents writer.new) sink.old sink.new result }
    ensures no_read { result ≢ Err SendFault.Read → R.count reader.new ≡ R.count reader.old }
    ensures write { IsErrOf result SendFault.Write
        → OneFailed (W.count writer.old) (W.count writer.new) (K.count sink.old) (K.count sink.new) }
    ensures no_write { result ≢ Err SendFault.Write
        → NoneFailed (W.count writer.old) (W.count writer.new) (K.count sink.old) (K.count sink.new) }
    ensures same { transmitter_of sender.new ≡ transmitter_of sender.old }
{
    sender.restart();
    'packets: for _accepted in 0..sender.most() {
        let more = read_packet(sender, reader)?;
        let Ok(()) = send_ready(sender, sink, writer) else {
            return Err(SendFault::Write);
        };
        if !more {
            return Ok(sender.counts());
        }
    }
    Err(SendFault::Read)
}
