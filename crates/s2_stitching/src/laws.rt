//! Laws of the records of pieces.
ghost use Rattle.s2_stitching.specs.Laws.{FrameThereLaw, TrueRecordLaw};

/// The record that a recorder writes of a receiver's decision is true, with its certificate or without, and has the seal of its frame.
/// The frame must be the one at the record's position, which [`frames_there`] says.
pub fn true_records()
    ensures { TrueRecordLaw }
{}

/// A frame that is met in a piece of a recording is the frame at its position in the recording.
pub fn frames_there()
    ensures { FrameThereLaw }
{}
