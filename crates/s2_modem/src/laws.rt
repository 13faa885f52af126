//! Laws, which follow from the definitions alone. Each is the clause of a call that does nothing.
ghost use Rattle.s2_message.specs.Correlation.{ScalingLaw};
ghost use Rattle.s2_modem.specs.Front.{CleanFrameLaw};
ghost use Rattle.s2_modem.specs.Headline.{LikelyFrameLaw, SoleFrameLaw, BothCodesLaw, ScatteredFrameLaw, ReceivesAllLaw, ArrivalLaw};
ghost use Rattle.s2_modem.specs.Streams.{FirstFramesLaw, OneStreamLaw};
ghost use Rattle.s2_modem.specs.Promise.{CallsLaw, FramesLaw, HeadlineLaw};

use s2_mode::Mode;
pub use s2_send::laws::{no_dummies, one_frame, one_run};

/// The bits of a frame that is called sole or most likely satisfy every check, and no bits that do cost less
/// under its soft values.
pub fn likely_frame(mode: Mode)
    ensures { LikelyFrameLaw mode }
{
    let _ = mode.k();
}

/// The bits of a frame that is called sole satisfy every check, and all others that do cost more under its soft
/// values.
pub fn sole_frame(mode: Mode)
    ensures { SoleFrameLaw mode }
{
    let _ = mode.k();
}

/// Both codes together. If the decided bits of the BCH word differ from those sent in at most t places, the
/// sent message and data field are delivered, with that number in the report.
pub fn both_codes(mode: Mode)
    ensures { BothCodesLaw mode }
{
    let _ = mode.k();
}

/// Facts about each frame, for any symbols. Its bits are as likely as its verdict says, by a certificate that is
/// accepted. Its BCH word differs from the decided bits in exactly the reported number of places, at most t. If a frame
/// was sent, and came without noise or scattered, it is delivered, certified, with no bit changed. If at most t bits of
/// its BCH word are wrong, exactly these are corrected.
pub fn frames(mode: Mode)
    ensures { FramesLaw mode }
{
    let _ = mode.k();
}

/// A frame whose soft values are scattered about the codeword that was sent is delivered, certified,
/// with no bit changed.
pub fn scattered_frame(mode: Mode)
    ensures { ScatteredFrameLaw mode }
{
    let _ = mode.k();
}

/// A frame without noise: its header is found, and the soft values of its payload say the codeword,
/// none of them 0, in all modes and by each divisor.
pub fn clean_frame()
    ensures { CleanFrameLaw }
{}

/// A frame without noise is found at its first symbol, right after a frame and elsewhere, and delivered, sole,
/// with no bit changed. Its codeword, message and data field are those that were sent, with each divisor and
/// each lock. A dummy frame without noise is found as one.
pub fn receives_all(mode: Mode)
    ensures { ReceivesAllLaw mode }
{
    let _ = mode.k();
}

/// A receiver writes all packets that a transmitter reads, if it gets the symbols that this one writes. It
/// reports each frame as sole, with no bit changed, at its place, with each divisor, and with dummy frames or
/// without. Figures, if they are wanted, have no errors.
pub fn arrival(mode: Mode)
    ensures { ArrivalLaw mode }
{
    let _ = mode.k();
}

/// Of the first frames of a stream, each without noise, or scattered with a header that is found, exactly the
/// packets whose closing CRC-8 is in their data fields are written. Each frame is reported as certified. Dummy
/// frames may be among them, and any symbols may follow.
pub fn first_frames(mode: Mode)
    ensures { FirstFramesLaw mode }
{
    let _ = mode.k();
}

/// The headline holds of each run by the rules of a link of the mode, from the beginning of a stream to its
/// end. The stream's bytes are known. It also holds if the run is made step by step
/// ([`s2_receive::laws::two_runs`]).
pub fn headline(mode: Mode)
    ensures { HeadlineLaw mode }
{
    let _ = mode.k();
}

/// Calls of [`crate::Receiver::advance`] of a new receiver, up to the end of some bytes, come to what
/// [`crate::demodulate`] does: the same packets and totals, and the headline. Each call gets the number of bytes that
/// [`crate::Receiver::room`] returns, or all that are left. So a caller that reads and writes by itself has what is
/// promised of a whole run.
pub fn calls(mode: Mode)
    ensures { CallsLaw mode }
{
    let _ = mode.k();
}

/// Receivers of one link in the same state write the same packets and the same report of the same symbols. They
/// have the same totals and the same result, however their readers cut the bytes.
pub fn one_stream()
    ensures { OneStreamLaw }
{}

/// If each received symbol is multiplied by a whole number, the power in the figures of a frame is multiplied by its
/// square, and both parts of the correlation by the number itself. So a gain that is computed from them is exact for each
/// amplitude.
pub fn scaling()
    ensures { ScalingLaw }
{}
