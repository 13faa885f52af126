//! Records, and beside them a copy of the recording.
ghost use Rattle.std.specs.Prelude.{◌≡◌, ◌^◌, ◌<◌, ◌≤◌, IfOk, None, Some};
ghost use Rattle.s2_message.specs.Reading.{IsSameReader};
ghost use Rattle.s2_mode.specs.Counts.{CanCount};
ghost use Rattle.s2_mode.specs.Mode.{n_of};
ghost use Rattle.s2_receive.specs.Limits.{max_symbols};
ghost use Rattle.s2_stitch.specs.Copies.{CountsCopy};
ghost use Rattle.s2_stitch.specs.Frames.{Terms, terms_by};
ghost use Rattle.s2_stitch.specs.Sources.{CountsSource, Gives, ReadsResult, fault_in, source_by};
ghost use Rattle.s2_stitch.specs.Usable.{CopiesUsable, IsUsable};

use crate::copy::{copy_frame, copy_to};
use crate::fault::SourceFault;
use crate::frame::RecordedFrame;
use crate::made::{has_seal, made_frame};
use crate::next::{Usable, next_usable};
use crate::record::Record;
use crate::room::Room;
use s2_check::Verdict;
use s2_matrix::Matrix;
use s2_message::{FrameOptions, FrameReader};
use s2_mode::{CountedRead, Mode};
use s2_scramble::ScramblingNumber;
use std::alloc::{AllocError, Global};
use std::marker::Model;

/// Reads the frame of a record with this verdict from the copy, whose position is `place`. `None` if the copy ends before the frame is
/// whole.
fn frame_of<'a, C: CountedRead>(
    alloc: Global,
    room: &mut Room,
    matrix: &'a Matrix,
    seed: u64,
    mode: Mode,
    reader: &mut FrameReader,
    copy: &mut C,
    place: &mut u64,
    verdict: Verdict,
    usable: Usable,
) -> Result<Option<RecordedFrame<'a>>, SourceFault>
    requires mode { mode ≡ reader.old.mode }
    requires count { CanCount (C.count copy.old) }
    requires usable { IsUsable matrix.now (n_of reader.old.mode) place.old usable }
    requires verdict { usable.record.verdict ≡ Some verdict }
    ensures frame { IfOk result (CopiesUsable (terms_by matrix.now seed reader.old) usable.record place.old place.new (C.remaining copy.old) (C.remaining copy.new)) }
    ensures same { IsSameReader reader.old reader.new }
    ensures counts { CountsCopy (C.count copy.old) (C.count copy.new) result }
{
    let at = usable.record.at;
    match copy_frame(alloc, room, copy, place, at, mode.symbols())? {
        Some(symbols) => {
            match made_frame(alloc, room, matrix, seed, reader, verdict, usable, symbols) {
                Ok(Some(frame)) => Ok(Some(frame)),
                Ok(None) => Err(SourceFault::OtherRecording),
                Err(_) => Err(SourceFault::NoMemory),
            }
        }
        None => Ok(None),
    }
}

/// Passes an end record: reads the copy up to the symbol after its position. There is no frame then.
fn end_of<'a, C: CountedRead>(
    seed: u64,
    copy: &mut C,
    place: &mut u64,
    own: &Record,
) -> Result<Option<RecordedFrame<'a>>, SourceFault>
    requires count { CanCount (C.count copy.old) }
    requires ahead { place.old ≤ own.now.at }
    requires reached { own.now.at ≤ max_symbols }
    requires end { own.now.verdict ≡ None }
    ensures frame { (t : Terms) → IfOk result (CopiesUsable t own.now place.old place.new (C.remaining copy.old) (C.remaining copy.new)) }
    ensures counts { CountsCopy (C.count copy.old) (C.count copy.new) result }
{
    if !has_seal(seed, &[], own) {
        return Err(SourceFault::OtherRecording);
    }
    copy_to(copy, place, own.at + 1)?;
    Ok(None)
}

/// Reads the frame of a record from the copy, or passes an end record.
fn read_usable<'a, C: CountedRead>(
    alloc: Global,
    room: &mut Room,
    matrix: &'a Matrix,
    seed: u64,
    mode: Mode,
    reader: &mut FrameReader,
    copy: &mut C,
    place: &mut u64,
    usable: Usable,
) -> Result<Option<RecordedFrame<'a>>, SourceFault>
    requires mode { mode ≡ reader.old.mode }
    requires count { CanCount (C.count copy.old) }
    requires usable { IsUsable matrix.now (n_of reader.old.mode) place.old usable }
    ensures frame { IfOk result (CopiesUsable (terms_by matrix.now seed reader.old) usable.record place.old place.new (C.remaining copy.old) (C.remaining copy.new)) }
    ensures same { IsSameReader reader.old reader.new }
    ensures counts { CountsCopy (C.count copy.old) (C.count copy.new) result }
{
    match usable.record.verdict {
        Some(verdict) => frame_of(
            alloc, room, matrix, seed, mode, reader, copy, place, verdict, usable,
        ),
        None => end_of(seed, copy, place, &usable.record),
    }
}

/// Reads the frame of the next record at this position or after it, and after the copy's position.
fn next_frame<'a, Q: CountedRead, C: CountedRead>(
    alloc: Global,
    room: &mut Room,
    matrix: &'a Matrix,
    seed: u64,
    mode: Mode,
    reader: &mut FrameReader,
    records: &mut Q,
    copy: &mut C,
    place: &mut u64,
    at: u64,
) -> Result<Option<RecordedFrame<'a>>, SourceFault>
    requires mode { mode ≡ reader.old.mode }
    requires records { CanCount (Q.count records.old) }
    requires copy { CanCount (C.count copy.old) }
    ensures reads { ReadsResult (terms_by matrix.now seed reader.old) at place.old place.new (Q.remaining records.old) (Q.remaining records.new) (C.remaining copy.old) (C.remaining copy.new) result }
    ensures same { IsSameReader reader.old reader.new }
    ensures counts { CountsSource (fault_in result) (Q.count records.old) (Q.count records.new) (C.count copy.old) (C.count copy.new) }
{
    match next_usable(alloc, matrix, records, mode.n(), at.max(*place)) {
        Ok(Some(usable)) => {
            read_usable(alloc, room, matrix, seed, mode, reader, copy, place, usable)
        }
        Ok(None) => Ok(None),
        Err(fault) => Err(SourceFault::Records(fault)),
    }
}

/// Reads records, and beside them a copy of the recording that they are of. Both are read once, in order.
///
/// In contracts, it is how frames are read, the unread bytes of the two readers, how many reads of each have failed, the copy's
/// position in symbols, and the fault that stopped it.
pub struct RecordSource<'a, Q: CountedRead, C: CountedRead> {
    matrix: &'a Matrix,
    seed: u64,
    mode: Mode,
    reader: FrameReader,
    records: Q,
    copy: C,
    place: u64,
    fault: Option<SourceFault>,
    room: Room,
}

impl<'a, Q: CountedRead + Drop, C: CountedRead + Drop> Drop for RecordSource<'a, Q, C> {
    fn drop(self) {
        let RecordSource {
            matrix: _,
            seed: _,
            mode: _,
            reader: _,
            records: _,
            copy: _,
            place: _,
            fault: _,
            room: _,
        } = self;
    }
}

impl<'a, Q: CountedRead, C: CountedRead> Model for RecordSource<'a, Q, C> {
    ghost use Rattle.std.specs.Prelude.{◌≡◌};
    ghost use Rattle.s2_stitch.specs.Frames.{terms_by};
    ghost use Rattle.s2_stitch.specs.Sources.{RecordSource as RecordSourceValue, source_by};

    ghost Value = { RecordSourceValue };

    ghost view = { λ s. source_by Q.remaining Q.count C.remaining C.count (terms_by s.matrix.now s.seed s.reader) s.records s.copy s.place s.fault };

    ghost invariant = { λ s. s.mode ≡ s.reader.mode };
}

impl<'a, Q: CountedRead, C: CountedRead> RecordSource<'a, Q, C> {
    /// A source of the frames of a mode and a scrambling number. `records` has the records of [`crate::record_into`], one after
    /// another, and `copy` the recording from its first symbol on, four bytes for each. `seed` is that of the records' seals
    /// ([`crate::seal_of`]). `AllocError` only if memory does not suffice.
    pub fn new(
        alloc: Global,
        matrix: &'a Matrix,
        seed: u64,
        mode: Mode,
        number: ScramblingNumber,
        options: FrameOptions,
        records: Q,
        copy: C,
    ) -> Result<RecordSource<'a, Q, C>, AllocError>
    where
        Q: Drop,
        C: Drop,
        ensures { IfOk result (λ s. s ≡ source_by Q.remaining Q.count C.remaining C.count
            (record { rows = matrix.now; seed = seed; mode = mode; number = number; options = options }) records copy 0 None) }
    {
        let reader = FrameReader::new(alloc, mode, number, options)?;
        Ok(RecordSource {
            matrix,
            seed,
            mode,
            reader,
            records,
            copy,
            place: 0,
            fault: None,
            room: Room::new(),
        })
    }

    /// The fault that stopped it, if one did.
    pub fn fault(&self) -> Option<SourceFault>
        ensures { result ≡ self.now.fault }
    {
        self.fault
    }

    /// Takes back a frame that is not used any more. The next one gets its memory.
    pub fn take_back(&mut self, frame: Option<RecordedFrame<'a>>)
        ensures { self.new ≡ self.old }
    {
        if let Some(frame) = frame {
            self.room.keep(frame);
        }
    }

    /// The frame of the next record at this position or after it, in symbols. It passes records before this position and before
    /// the position up to which the copy was read, and records whose certificate does not suit the matrix. `None` at the end of the
    /// records, if the copy ends before the frame is whole, and after a fault. After an end record it is `None` up to the position of
    /// that, and nothing is read. `OtherRecording` if the record has another seal than its frame.
    pub fn next(&mut self, alloc: Global, at: u64) -> Option<RecordedFrame<'a>>
        requires records { CanCount self.old.record_reads }
        requires copy { CanCount self.old.copy_reads }
        ensures { Gives at self.old self.new result }
    {
        if self.fault.is_some() || at < self.place {
            return None;
        }
        match next_frame(
            alloc,
            &mut self.room,
            self.matrix,
            self.seed,
            self.mode,
            &mut self.reader,
            &mut self.records,
            &mut self.copy,
            &mut self.place,
            at,
        ) {
            Ok(frame) => frame,
            Err(fault) => {
                self.fault = Some(fault);
                None
            }
        }
    }
}
