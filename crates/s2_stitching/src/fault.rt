//! Faults of the records and of the copy of the recording.
ghost use Rattle.std.specs.Prelude.{◌≡◌};
ghost use Rattle.s2_stitching.specs.Stitches.{fault_of};

use s2_io::Fault;
use s2_mode::FaultText;
use s2_stitch::{RecordFault, SourceFault};

/// The fault of a command whose records or copy cannot be read.
pub(crate) fn fault_of(fault: SourceFault) -> Fault<'static>
    ensures { result ≡ fault_of fault }
{
    match fault {
        SourceFault::Records(RecordFault::Read) => {
            Fault::about("records: ", FaultText::of("cannot read"))
        }
        SourceFault::Records(RecordFault::NotARecord) => {
            Fault::about("records: ", FaultText::of("not the record of a decision"))
        }
        SourceFault::Records(RecordFault::NoMemory) => Fault::NoMemory,
        SourceFault::OtherRecording => Fault::about(
            "records: ",
            FaultText::of("of another recording, of other rows or of other options"),
        ),
        SourceFault::NoMemory => Fault::NoMemory,
        SourceFault::Recording => Fault::about(
            "symbols, read again: ",
            FaultText::of("cannot read"),
        ),
    }
}
