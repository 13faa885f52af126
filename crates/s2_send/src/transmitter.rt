//! The transmitter: packets in, symbols out.
ghost use Rattle.std.specs.Prelude.{◌≡◌, ◌≢◌, ◌+◌, ◌<◌, ◌≤◌, Err, IfOk, IsErrOf};
ghost use Rattle.s2_mode.specs.Counts.{CanCount};
ghost use Rattle.s2_mode.specs.Streams.{NoneFailed, OneFailed};
ghost use Rattle.s2_send.specs.Limits.{max_packets};
ghost use Rattle.s2_send.specs.Transmitter.{TransmitterAnswers, new_transmitter};
ghost use Rattle.s2_send.specs.Sending.{RunsWith, TransmitterRuns};
ghost use Rattle.s2_send.specs.Laws.{ReadFails};

use crate::outcome::{Counts, SendFault};
use crate::sender::Sender;
use crate::sending::send_all;
use crate::sinks::SendSink;
use s2_link::{Link, Setup, SetupFault};
use s2_matrix::Matrix;
use s2_mode::{CountedRead, CountedWrite};
use std::alloc::{AllocError, Global};
use std::marker::Model;

/// Sends packets as frames of symbols, from a reader to a writer. To contracts it is its link, the most packets of a run,
/// and after how many frames a run sends a dummy frame.
pub struct Transmitter<'a> {
    sender: Sender<'a>,
}

impl<'a> Drop for Transmitter<'a> {
    fn drop(self) {
        let Transmitter { sender: _ } = self;
    }
}

impl<'a> Model for Transmitter<'a> {
    ghost use Rattle.s2_send.specs.Sender.{transmitter_of};
    ghost use Rattle.s2_send.specs.Transmitter.{Transmitter as TransmitterValue};

    ghost Value = { TransmitterValue };

    ghost view = { λ t. transmitter_of t.sender };
}

impl<'a> Transmitter<'a> {
    /// A transmitter with all the memory that it needs. If there are several refusals, it returns the first.
    ///
    /// - `OtherShape`: the matrix is not of the shape of the mode's code.
    /// - `BadNumber`: the scrambling number is over 262141.
    /// - `BadRollOff`: the roll-off is over 2.
    /// - `NoMemory`: it is out of memory.
    ///
    /// It never returns `BadRounds` or `BadPasses`.
    pub fn new(
        alloc: Global,
        setup: Setup,
        matrix: &'a Matrix,
    ) -> Result<Transmitter<'a>, SetupFault>
        ensures { TransmitterAnswers setup matrix.now result }
    {
        let link = Link::new(setup, matrix)?;
        Transmitter::on_link(alloc, &link).map_err(|_| SetupFault::NoMemory)
    }

    /// A transmitter on a link, with all the memory that it needs. `AllocError` only if it is out of memory.
    pub fn on_link(alloc: Global, link: &Link<'a>) -> Result<Transmitter<'a>, AllocError>
        ensures is { IfOk result (λ t. t ≡ new_transmitter link.now) }
    {
        Ok(Transmitter {
            sender: Sender::on_link(alloc, link)?,
        })
    }

    /// Sets the most packets of each run, 1 to [`crate::MAX_PACKETS`].
    pub fn limit(&mut self, packets: u64)
        requires { (1 ≤ packets) × (packets ≤ max_packets) }
        ensures { self.new ≡ record self.old { limit = packets } }
    {
        self.sender.restart();
        self.sender.limit(packets);
    }

    /// Sets after how many frames each run writes a dummy frame. One may follow the last frame of the run too. With 0,
    /// as in a new transmitter, there are no dummy frames. It takes no memory.
    pub fn dummy_every(&mut self, frames: u16)
        ensures { self.new ≡ record self.old { dummy_every = frames } }
    {
        self.sender.dummy_every(frames);
    }

    /// Reads packets of 188 bytes to the reader's end, and writes the frames of their data stream,
    /// which begins anew with each run. It takes no memory. It reads packet by packet, and writes
    /// frame by frame. A packet is accepted if it is whole and begins with 47 hexadecimal. At most
    /// [`crate::MAX_PACKETS`] are accepted, or fewer if [`Transmitter::limit`] was called. A dummy frame
    /// follows a frame if [`Transmitter::dummy_every`] says so. Below, it belongs to that frame, and
    /// is not counted.
    ///
    /// After `Ok` the reader is at its end, and the writer has gained exactly the frames of all data
    /// fields. `NotWholePacket` and `NoSync` report a faulty packet. `Read` reports that a read
    /// failed, or that the limit of packets was reached; then nothing more is read. After these three
    /// the writer has gained exactly the frames of the full data fields of the packets accepted
    /// before. After `Write` it has gained the whole frames of the fields before the one whose frame
    /// failed, and the beginning of that frame.
    ///
    /// In each case the reader has given the packets that were accepted, then the bytes that were
    /// refused or that came before a failed read, at most 188, and no more.
    pub fn run<R: CountedRead, W: CountedWrite>(
        &mut self,
        reader: &mut R,
        writer: &mut W,
    ) -> Result<Counts, SendFault>
        requires reader { CanCount (R.count reader.old) }
        requires writer { CanCount (W.count writer.old) }
        ensures runs { TransmitterRuns self.old (ReadFails self.old.limit (R.count reader.old) (R.count reader.new))
            (R.remaining reader.old) (R.remaining reader.new) (W.contents writer.old) (W.contents writer.new) result }
        ensures no_read { result ≢ Err SendFault.Read → R.count reader.new ≡ R.count reader.old }
        ensures write { IsErrOf result SendFault.Write → W.count writer.new ≡ W.count writer.old + 1 }
        ensures no_write { result ≢ Err SendFault.Write → W.count writer.new ≡ W.count writer.old }
        ensures same { self.new ≡ self.old }
    {
        self.run_with(reader, &mut (), writer)
    }

    /// The same, with a sink that takes the codeword of each frame before the frame's symbols are written, and no dummy
    /// frame. `Write` also means that the sink failed. Then it took the codewords of all frames before, and nothing of the
    /// frame whose codeword it did not take is written. After a failed write of symbols it took the codeword of that frame
    /// too. In every other case it took the codewords of exactly the frames that were written.
    pub fn run_with<K: SendSink, R: CountedRead, W: CountedWrite>(
        &mut self,
        input: &mut R,
        sink: &mut K,
        output: &mut W,
    ) -> Result<Counts, SendFault>
        requires reader { CanCount (R.count input.old) }
        requires sink { CanCount (K.count sink.old) }
        requires writer { CanCount (W.count output.old) }
        ensures runs { RunsWith K.takes K.fails self.old (ReadFails self.old.limit (R.count input.old) (R.count input.new))
            (R.remaining input.old) (R.remaining input.new) (W.contents output.old) (W.contents output.new) sink.old sink.new result }
        ensures no_read { result ≢ Err SendFault.Read → R.count input.new ≡ R.count input.old }
        ensures write { IsErrOf result SendFault.Write
            → OneFailed (W.count output.old) (W.count output.new) (K.count sink.old) (K.count sink.new) }
        ensures no_write { result ≢ Err SendFault.Write
            → NoneFailed (W.count output.old) (W.count output.new) (K.count sink.old) (K.count sink.new) }
        ensures same { self.new ≡ self.old }
    {
        send_all(&mut self.sender, input, sink, output)
    }
}
