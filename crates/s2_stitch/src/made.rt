//! The frame of a record, decided by it.
ghost use Rattle.std.specs.Prelude.{◌≡◌, ◌↔◌, IfOk, IfSome, IsTrue, Some, length};
ghost use Rattle.s2_certfile.specs.Format.{file_of_bytes};
ghost use Rattle.s2_check.specs.CertificateFiles.{Suits};
ghost use Rattle.s2_message.specs.Reading.{IsSameReader};
ghost use Rattle.s2_mode.specs.Mode.{n_of, symbols_in};
ghost use Rattle.s2_stitch.specs.Frames.{IsFrameOf, file_in, terms_by};
ghost use Rattle.s2_stitch.specs.Records.{seal_of};

use crate::frame::RecordedFrame;
use crate::next::Usable;
use crate::record::Record;
use crate::room::Room;
use crate::seal::seal_of;
use s2_check::Verdict;
use s2_matrix::Matrix;
use s2_message::FrameReader;
use s2_mode::Symbol;
use std::alloc::{AllocError, Global};

/// Whether a record has the seal of a frame with these soft values.
pub(crate) fn has_seal(seed: u64, soft: &[i16], own: &Record) -> bool
    ensures { IsTrue result ↔ own.now.seal ≡ seal_of seed soft.now own.now }
{
    let seal = seal_of(
        seed,
        soft,
        own.at,
        own.rounds,
        own.verdict,
        &own.word,
        &own.certificate,
    );
    own.seal == seal
}

/// The frame of a record that has this verdict, with these symbols. Its soft values, its message and its data field are found by a
/// reader of frames. `None` if the record has another seal.
pub(crate) fn made_frame<'a>(
    alloc: Global,
    room: &mut Room,
    matrix: &'a Matrix,
    seed: u64,
    reader: &mut FrameReader,
    verdict: Verdict,
    usable: Usable,
    symbols: Vec<Symbol>,
) -> Result<Option<RecordedFrame<'a>>, AllocError>
    requires verdict { usable.record.verdict ≡ Some verdict }
    requires bits { length usable.record.bits ≡ n_of reader.old.mode }
    requires certificate { usable.certificate ≡ file_in (file_of_bytes usable.record.certificate) }
    requires suits { IfSome usable.certificate (Suits matrix.now) }
    requires symbols { length symbols.items ≡ symbols_in reader.old.mode }
    ensures makes { IfOk result (λ o. IfSome o (λ f. (f.symbols ≡ symbols.items) × IsFrameOf (terms_by matrix.now seed reader.old) usable.record f)) }
    ensures same { IsSameReader reader.old reader.new }
{
    let Usable {
        record,
        certificate,
    } = usable;
    let mut soft = room.take_soft(alloc, record.word.len())?;
    reader.find_soft(&symbols, &mut soft);
    if !has_seal(seed, &soft, &record) {
        return Ok(None);
    }
    let decided = reader.read(&symbols, &soft, &record.word, verdict, record.rounds);
    let message = Vec::from_slice(alloc, reader.message())?;
    let field = Vec::from_slice(alloc, reader.field())?;
    let Record {
        at,
        seal: _,
        rounds: _,
        verdict: _,
        word,
        certificate: _,
    } = record;
    Ok(Some(RecordedFrame {
        matrix,
        at,
        symbols,
        soft,
        word,
        certificate,
        message,
        decided,
        field,
    }))
}
