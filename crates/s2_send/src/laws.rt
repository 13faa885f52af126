//! Laws of the definitions: each a call that does nothing, whose clause is the law.
ghost use Rattle.s2_send.specs.Limits.{LimitsLaw};
ghost use Rattle.s2_send.specs.Laws.{AsRunLaw, FrameLaw, GivesLaw, NoDummiesLaw, RunLaw};

use s2_mode::Mode;

/// A header and its data field have one frame.
pub fn one_frame(mode: Mode)
    ensures { FrameLaw mode }
{
    s2_ldpc::laws::unique();
    let _ = mode.k();
}

/// If a transmitter sends no dummy frames, the unit of a header and its data field is their frame.
pub fn no_dummies()
    ensures { NoDummiesLaw }
{}

/// Packets, setup, rows and the number of frames between dummy frames determine a run's result and output. Two runs
/// over the same bytes, in which neither a read nor a write failed, return the same and write the same.
pub fn one_run(mode: Mode)
    ensures { RunLaw mode }
{
    one_frame(mode);
}

/// However the bytes of a stream are cut into calls of [`crate::Sender::put`]: when no frame can be taken, the sender has
/// given exactly the units of the full data fields of the packets so far, and after its end those of all data fields.
pub fn sender_gives()
    ensures { GivesLaw }
{}

/// A sender and a run over the same bytes end in the same way, and the run writes exactly the units that the sender gave.
pub fn as_run(mode: Mode)
    ensures { AsRunLaw mode }
{
    one_frame(mode);
}

/// The limit that is tested, [`crate::MAX_PACKETS`], is that of the definitions.
pub fn limits()
    ensures { LimitsLaw }
{}
