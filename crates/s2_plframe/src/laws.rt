//! Laws of frames, of the header test and of the search.
ghost use Rattle.std.specs.Prelude.{◌≡◌};
ghost use Rattle.s2_plframe.specs.Constants.{header_threshold, max_lock};
ghost use Rattle.s2_plframe.specs.HeaderLaws.{TakenOutLaw, SeenLaw, LastLaw, CleanHeaderLaw, DummyHeaderLaw, DummiesApartLaw, ApartLaw, BehindLaw, StillFoundLaw, RotationsLaw, StraightLaw, TurnedFrameLaw, TurnedDummyLaw};

use crate::constants::{HEADER_THRESHOLD, MAX_LOCK};

/// A frame begins with its mode's header, and its payload can be taken out again.
pub fn taken_out()
    ensures { TakenOutLaw }
{}

/// A search that took some symbols and then one more has seen the decisions on the last 90 of all of them.
pub fn seen()
    ensures { SeenLaw }
{}

/// A search has seen the decisions on the last 90 symbols.
pub fn last()
    ensures { LastLaw }
{}

/// The header of a frame without noise is found.
pub fn clean_header()
    ensures { CleanHeaderLaw }
{}

/// The header of a dummy frame without noise is found as one, with every mode and TYPE.
pub fn dummy_header()
    ensures { DummyHeaderLaw }
{}

/// The header of each mode differs from each of the four headers of dummy frames in at least 32 of its 90 bits.
pub fn dummies_apart()
    ensures { DummiesApartLaw }
{}

/// No window passes as a header of a mode and as one of dummy frames.
pub fn apart()
    ensures { ApartLaw }
{}

/// With a lock of 12 the test right after a frame is the usual test.
pub fn behind()
    ensures { BehindLaw }
{}

/// A header that passes the usual test passes right after a frame too, with each lock.
pub fn still_found()
    ensures { StillFoundLaw }
{}

/// The decisions of a search in each rotation are those on the symbols rotated back.
pub fn rotations()
    ensures { RotationsLaw }
{}

/// A search in one rotation finds the headers as sent.
pub fn straight()
    ensures { StraightLaw }
{}

/// A frame without noise that arrived rotated is found in a search in all rotations, and rotated back it is the frame that was
/// sent.
pub fn turned_frame()
    ensures { TurnedFrameLaw }
{}

/// The header of a dummy frame without noise that arrived rotated is found as one, with every mode and TYPE.
pub fn turned_dummy()
    ensures { TurnedDummyLaw }
{}

/// [`crate::HEADER_THRESHOLD`] and [`crate::MAX_LOCK`] are the numbers of the definitions.
pub fn limits()
    ensures wrong { HEADER_THRESHOLD ≡ header_threshold }
    ensures lock { MAX_LOCK ≡ max_lock }
{}
