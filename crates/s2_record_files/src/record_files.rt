//! The files of records, each with its sink.
ghost use Rattle.std.specs.Prelude.{◌≤◌};
ghost use Rattle.s2_record_files.specs.Failed.{records_failed};

use crate::finishing::{finish_received, finish_sent};
use s2_io::{Output, Truncating};
use s2_mode::WriteFault;
use s2_records::{Bbframes, Certificates, Codewords, Labels, PlainSymbols, Recorder, Values};

/// The sinks of words and of BBFRAMEs, each if its file is given.
pub type WordRecords<W> = (Option<Codewords<W>>, Option<Bbframes<W>>);

/// The sinks of what a transmitter makes of codewords, each if its file is given.
pub type SymbolRecords<W> = (Option<Labels<W>>, Option<PlainSymbols<W>>);

/// The sinks of a receiver's records, each if its file is given. Frames go to them in this order.
pub type ReceivedRecords<W> = (
    Option<Recorder<W>>,
    (Option<Certificates<W>>, (Option<Values<W>>, WordRecords<W>)),
);

/// The sinks of a transmitter's records, each if its file is given. Frames go to them in this order.
pub type SentRecords<W> = (
    Option<Codewords<W>>,
    (Option<Bbframes<W>>, SymbolRecords<W>),
);

/// The sinks of records: those of the receiver, and those of the transmitter. A command has sinks of one end only.
pub struct RecordFiles<W> {
    pub received: ReceivedRecords<Truncating<W>>,
    pub sent: SentRecords<Truncating<W>>,
}

impl<W: Drop> Drop for RecordFiles<W> {
    fn drop(self) {
        let RecordFiles {
            received: _,
            sent: _,
        } = self;
    }
}

impl<W: Output> RecordFiles<W> {
    /// The number of frames that were recorded of a piece.
    pub fn recorded_frames(&self) -> u64 {
        match &self.received.0 {
            Some(recorder) => recorder.records(),
            None => 0,
        }
    }
}

impl<W: Output + Drop> RecordFiles<W> {
    /// Truncates each file to which nothing was written.
    pub(crate) fn finish(self) -> Result<(), WriteFault>
        requires { records_failed W.count self ≤ 1 }
    {
        let RecordFiles { received, sent } = self;
        let received = finish_received(received);
        let sent = finish_sent(sent);
        received.and(sent)
    }
}
