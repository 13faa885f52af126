//! The records of the frames of a piece of a recording.
ghost use Rattle.std.specs.Prelude.{◌≡◌, ◌≤◌, IfOk, Ok, OnOk, length};
ghost use Rattle.s2_certfile.specs.Format.{file_of_bytes};
ghost use Rattle.s2_check.specs.CertificateBytes.{bytes_of, file_of};
ghost use Rattle.s2_stitch.specs.Records.{max_certificate, record_bytes};
ghost use Rattle.s2_records.specs.Recording.{IsReadBack, end_record, record_of, recorded_certificate, rounds_of};

use s2_bits::Bits;
use s2_check::CertView;
use s2_mode::{Counted, CountedWrite, Counting, WriteFault, write_full};
use s2_receive::{Frame, FrameStart, Sink};
use s2_report::Figures;
use s2_stitch::{record_into, seal_of};
use std::alloc::{AllocError, Global};
use std::marker::Model;

/// The rounds of min-sum, or 0 without figures.
fn rounds_of(figures: Option<Figures>) -> u32
    ensures { result ≡ rounds_of figures }
{
    match figures {
        Some(figures) => figures.rounds,
        None => 0,
    }
}

/// The file of a certificate.
fn file_of(alloc: Global, certificate: &CertView<'_>) -> Result<Vec<u8>, AllocError>
    ensures bytes { IfOk result (λ v. v.items ≡ bytes_of certificate.now) }
    ensures read_back { OnOk result (file_of_bytes (bytes_of certificate.now) ≡ Ok (file_of certificate.now)) }
    ensures few { IfOk result (λ v. length v.items ≤ max_certificate) }
{
    // the facts on the sizes of its lists are a part of this clause
    let _shape = certificate.shape();
    let mut file = Counting::new(Vec::new(alloc));
    match certificate.write(&mut file) {
        Ok(()) => Ok(file.into_inner()),
        Err(_) => Err(AllocError),
    }
}

/// The file of a frame's certificate, if certificates are recorded and it has one.
fn recorded_certificate(
    alloc: Global,
    certificates: bool,
    frame: &Frame<'_>,
) -> Result<Vec<u8>, AllocError>
    ensures bytes { IfOk result (λ v. v.items ≡ recorded_certificate certificates frame.now) }
    ensures read_back { OnOk result (IsReadBack certificates frame.now.certificate) }
    ensures few { IfOk result (λ v. length v.items ≤ max_certificate) }
{
    match &frame.certificate {
        Some(certificate) if certificates => file_of(alloc, certificate),
        _ => Ok(Vec::new(alloc)),
    }
}

/// Puts the record of the frame at a position into a block.
fn put_record(
    alloc: Global,
    block: &mut Vec<u8>,
    certificates: bool,
    seed: u64,
    at: u64,
    frame: &Frame<'_>,
) -> Result<(), AllocError>
    ensures bytes { OnOk result (block.new.items ≡ record_bytes (record_of certificates seed at frame.now)) }
    ensures read_back { OnOk result (IsReadBack certificates frame.now.certificate) }
{
    let certificate = recorded_certificate(alloc, certificates, frame)?;
    let rounds = rounds_of(frame.decided.figures);
    let verdict = Some(frame.decided.verdict);
    let seal = seal_of(
        seed,
        frame.soft,
        at,
        rounds,
        verdict,
        frame.word,
        &certificate,
    );
    record_into(block, at, seal, rounds, verdict, frame.word, &certificate)
}

/// Puts the end record of frames of this number of bits into a block.
fn put_end(
    alloc: Global,
    block: &mut Vec<u8>,
    seed: u64,
    bits: usize,
    last: u64,
) -> Result<(), AllocError>
    ensures { OnOk result (block.new.items ≡ record_bytes (end_record seed bits last)) }
{
    let word = Bits::zeroed(alloc, bits)?;
    let seal = seal_of(seed, &[], last, 0, None, &word, &[]);
    record_into(block, last, seal, 0, None, &word, &[])
}

/// A sink of the records of a piece of a recording, for [`s2_stitch::stitch_with`]. It writes the record of each frame, with the
/// frame's position in the recording and a seal, and at last an end record. In contracts, it is the position at which the piece
/// begins, the seed of the seals, whether it records certificates, its writer, the number of its records, and how often memory was
/// refused.
pub struct Recorder<W> {
    alloc: Global,
    from: u64,
    seed: u64,
    certificates: bool,
    to: W,
    block: Vec<u8>,
    records: u64,
    refused: u64,
}

impl<W: Drop> Drop for Recorder<W> {
    fn drop(self) {
        let Recorder {
            alloc: _,
            from: _,
            seed: _,
            certificates: _,
            to: _,
            block: _,
            records: _,
            refused: _,
        } = self;
    }
}

impl<W> Model for Recorder<W> {
    ghost use Rattle.s2_records.specs.Recording.{Recorder as RecorderValue};

    ghost Value = { RecorderValue W };

    ghost view = { λ r. record { from = r.from; seed = r.seed; certificates = r.certificates; to = r.to; records = r.records; refused = r.refused } };
}

impl<W: CountedWrite> Recorder<W> {
    ghost use Rattle.std.specs.Prelude.{◌≡◌, OnErr, OnOk};
    ghost use Rattle.s2_mode.specs.Counts.{CanCount, CountsFault, counted_with};
    ghost use Rattle.s2_records.specs.Recording.{FailsEnd, GainsEnd};

    /// It writes to this writer the records of the frames of a piece that begins at this position, with the certificates if these
    /// are recorded. The seals begin with this seed ([`s2_stitch::seal_of`]).
    pub fn new(alloc: Global, from: u64, seed: u64, certificates: bool, to: W) -> Recorder<W>
        ensures { result ≡ record { from = from; seed = seed; certificates = certificates; to = to; records = 0; refused = 0 } }
    {
        Recorder {
            alloc,
            from,
            seed,
            certificates,
            to,
            block: Vec::new(alloc),
            records: 0,
            refused: 0,
        }
    }

    /// Writes the end record of the piece, whose frames have this number of bits: no other frame of the piece begins at the position
    /// `last` or before it. It is not counted as a record. It fails too if memory is refused; then nothing is written.
    pub fn finish(&mut self, last: u64, bits: usize) -> Result<(), WriteFault>
        requires { CanCount (counted_with (W.count self.old.to) self.old.refused) }
        ensures gains { OnOk result (GainsEnd W.contents self.old self.new bits last) }
        ensures fails { OnErr result (FailsEnd W.contents self.old self.new bits last) }
        ensures cause { CountsFault (counted_with (W.count self.old.to) self.old.refused) (counted_with (W.count self.new.to) self.new.refused) result }
    {
        match put_end(self.alloc, &mut self.block, self.seed, bits, last) {
            Ok(()) => write_full(&mut self.to, &self.block),
            Err(_) => {
                self.refused = self.refused.saturating_add(1);
                Err(WriteFault)
            }
        }
    }

    /// The number of records of frames that it has written.
    pub fn records(&self) -> u64
        ensures { result ≡ self.now.records }
    {
        self.records
    }

    /// Its writer.
    pub fn into_inner(self) -> W
        ensures { result ≡ self.to }
    {
        let Recorder {
            alloc: _,
            from: _,
            seed: _,
            certificates: _,
            to,
            block: _,
            records: _,
            refused: _,
        } = self;
        to
    }
}

impl<W: CountedWrite> Sink for Recorder<W> {
    ghost use Rattle.s2_mode.specs.Counts.{counted_with};
    ghost use Rattle.s2_records.specs.Recording.{FailsRecord, TakesRecord};

    ghost takes = { TakesRecord W.contents };

    ghost fails = { FailsRecord W.contents };

    ghost count = { λ r. counted_with (W.count r.to) r.refused };

    /// Writes the record of a frame. It fails too if memory is refused; then nothing is written.
    fn take(&mut self, start: FrameStart, frame: &Frame<'_>) -> Result<(), WriteFault> {
        let at = self.from.saturating_add(start.at);
        if put_record(
            self.alloc,
            &mut self.block,
            self.certificates,
            self.seed,
            at,
            frame,
        )
        .is_err()
        {
            self.refused = self.refused.saturating_add(1);
            return Err(WriteFault);
        }
        write_full(&mut self.to, &self.block)?;
        self.records = self.records.saturating_add(1);
        Ok(())
    }
}
