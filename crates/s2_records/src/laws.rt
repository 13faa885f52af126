//! Laws of the definitions: each a call that does nothing, whose clause is the law.
ghost use Rattle.s2_records.specs.JoinLaws.{ZerosLaw, TogetherLaw, RoundTripLaw};
ghost use Rattle.s2_records.specs.Laws.{BbframesLaw, JoinedLaw, ReadBackLaw, RecordsLaw, ValuesLaw, WholeLaw};
ghost use Rattle.s2_records.specs.Limits.{LimitsLaw};
ghost use Rattle.s2_records.specs.Recording.{RecordedLaw};
ghost use Rattle.s2_records.specs.Sent.{BothEndsLaw, SentLaw, WordsLaw};
ghost use Rattle.s2_records.specs.Vectors.{PointsLaw};

use s2_mode::CountedWrite;

/// A sink that took frames has written their records, one after another.
pub fn records<W: CountedWrite>()
    ensures { RecordsLaw W.contents }
{}

/// A sink of BBFRAMEs that took frames has written their BBFRAMEs, one after another, with zeros for skipped symbols.
pub fn bbframes<W: CountedWrite>()
    ensures { BbframesLaw W.contents }
{}

/// A recorder that took frames has written their records, one after another, each at its position in the recording.
pub fn recorded<W: CountedWrite>()
    ensures { RecordedLaw W.contents }
{}

/// The record of each frame, and the zeros for skipped symbols, have the size of a BBFRAME of the mode: Kbch / 8 bytes.
/// So a file of them has whole BBFRAMEs.
pub fn whole()
    ensures { WholeLaw }
{}

/// The line of a frame's soft values is read as these values.
pub fn values()
    ensures { ValuesLaw }
{}

/// `join` reads from the BBFRAME of a delivered frame the delivered header and data field, and from that of another
/// frame a refused header. The message of the frame must agree with its delivered field, as in each frame of `s2_modem`
/// (`s2_modem::laws::frames`).
pub fn read_back()
    ensures { ReadBackLaw }
{}

/// The packets of `join` over the BBFRAMEs of all frames that a receiver met are exactly the packets that the receiver
/// wrote. The receiver was new, came to the end, and the bytes of its stream are known. So a file of BBFRAMEs loses
/// nothing.
pub fn joined()
    ensures { JoinedLaw }
{}

/// A sink of a transmitter that took codewords has written them, one after another.
pub fn words<W: CountedWrite>()
    ensures { WordsLaw W.contents }
{}

/// A sink of BBFRAMEs, of labels or of symbols that took a transmitter's codewords has written the record of each, one
/// after another.
pub fn sent<W: CountedWrite>()
    ensures { SentLaw W.contents }
{}

/// The symbols of a codeword are the constellation points of its labels.
pub fn points()
    ensures { PointsLaw }
{}

/// Both ends write the same. Suppose a frame is delivered, its decided word is a codeword, and its message the first
/// Kbch bits of that. Then the receiver writes the same word and the same BBFRAME for it as the transmitter for the
/// codeword.
pub fn both_ends()
    ensures { BothEndsLaw }
{}

/// A BBFRAME of zeros has a refused header, so it is a gap for the joiner. A file can have one instead of a lost
/// frame, or of skipped symbols.
pub fn zeros()
    ensures { ZerosLaw }
{}

/// Whole BBFRAMEs of a mode, one after another, are exactly the frames of the file that they make.
pub fn together()
    ensures { TogetherLaw }
{}

/// BBFRAMEs of the first data fields of a stream of packets give exactly the packets whose closing CRC-8 is in these
/// fields. All are delivered, and no packet is bad.
pub fn round_trip()
    ensures { RoundTripLaw }
{}

/// The numbers that the code works with, [`crate::MAX_FRAMES`] among them, are those of the definitions.
pub fn limits()
    ensures { LimitsLaw }
{}
