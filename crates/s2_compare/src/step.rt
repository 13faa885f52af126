//! One step of a comparison.
ghost use Rattle.std.specs.Prelude.{◌≡◌, ◌≢◌, ◌+◌, [], Err, IfErr, IfOk, IsOkUnless, OnOk};
ghost use Rattle.std.specs.Io.KnownBytes.{Appends, Consumes, IsAtEnd};
ghost use Rattle.s2_mode.specs.Counts.{CanCount};
ghost use Rattle.s2_mode.specs.Pieces.{AppendsPart};
ghost use Rattle.s2_evidence.specs.Pieces.{TakesPiece};
ghost use Rattle.s2_compare.specs.Devices.{HasMoreWords, shape_for};
ghost use Rattle.s2_compare.specs.Feeding.{ComparesNext, feeds};
ghost use Rattle.s2_compare.specs.Stepping.{AnswersNext};

use crate::answers::answer_for;
use crate::compared::Compared;
use crate::form::Form;
use crate::lines::frame_line;
use crate::word_reader::WordReader;
use s2_bits::Bits;
use s2_check::Certificate;
use s2_evidence::{next_certificate, piece_room};
use s2_io::{Fault, Line};
use s2_matrix::Matrix;
use s2_mode::{CountedRead, CountedWrite, FaultText, read_full, write_full};
use std::alloc::Global;
use std::marker::Model;

/// Compares the words of a device with those of certificates, in its own buffers. Its value is the form of the words,
/// and the address rows.
pub(crate) struct Comparer<'a> {
    words: WordReader<'a>,
    room: Vec<u8>,
    odd: Bits,
}

impl<'a> Drop for Comparer<'a> {
    fn drop(self) {
        let Comparer {
            words: _,
            room: _,
            odd: _,
        } = self;
    }
}

impl<'a> Model for Comparer<'a> {
    ghost use Rattle.s2_compare.specs.Stepping.{Comparing, FitsComparer};

    ghost Value = { Comparing };

    ghost view = { λ c. record { form = c.words.form; rows = c.words.rows } };

    ghost invariant = { λ c. FitsComparer c.words.rows c.room.items c.odd };
}

impl<'a> Comparer<'a> {
    /// The comparer of a form, for the code of a matrix.
    pub(crate) fn new(
        alloc: Global,
        matrix: &'a Matrix,
        form: &Form,
    ) -> Result<Comparer<'a>, Fault<'static>>
        requires { matrix.now.shape ≡ shape_for form.now }
        ensures form { IfOk result (λ c. c.form ≡ form.now) }
        ensures rows { IfOk result (λ c. c.rows ≡ matrix.now) }
        ensures told { IsOkUnless result Fault.NoMemory }
    {
        let room = piece_room(alloc)?;
        let odd = Bits::zeroed(alloc, matrix.check_count()).map_err(|_| Fault::NoMemory)?;
        let words = WordReader::new(alloc, matrix, form).map_err(|_| Fault::NoMemory)?;
        Ok(Comparer { words, room, odd })
    }

    /// The next certificate of a reader; none at its end.
    fn take_certificate<R: CountedRead>(
        &mut self,
        alloc: Global,
        certificates: &mut R,
    ) -> Result<Option<Certificate>, Fault<'static>>
        requires { CanCount (R.count certificates.old) }
        ensures takes { TakesPiece (R.remaining certificates.old) (R.remaining certificates.new) result }
        ensures same { self.new ≡ self.old }
        ensures read { result ≡ Err Fault.Read → R.count certificates.new ≡ R.count certificates.old + 1 }
        ensures no_other { result ≢ Err Fault.Read → R.count certificates.new ≡ R.count certificates.old }
    {
        next_certificate(alloc, certificates, &mut self.room)
    }

    /// Reads the device's word for a certificate, and compares it.
    fn answer<R: CountedRead>(
        &mut self,
        certificate: &Certificate,
        words: &mut R,
    ) -> Result<Compared, Fault<'static>>
        requires { CanCount (R.count words.old) }
        ensures answers { AnswersNext self.old.form self.old.rows certificate.now (R.remaining words.old) (R.remaining words.new) result }
        ensures same { self.new ≡ self.old }
        ensures read { result ≡ Err Fault.Read → R.count words.new ≡ R.count words.old + 1 }
        ensures no_other { result ≢ Err Fault.Read → R.count words.new ≡ R.count words.old }
    {
        let delivered = self.words.read(words)?;
        Ok(answer_for(
            self.words.matrix(),
            certificate,
            delivered,
            self.words.word(),
            &mut self.odd,
        ))
    }
}

/// Refuses a record after the last certificate.
fn expect_end<R: CountedRead>(words: &mut R) -> Result<(), Fault<'static>>
    requires { CanCount (R.count words.old) }
    ensures end { OnOk result (IsAtEnd (R.remaining words.new)) }
    ensures none { OnOk result (Consumes (R.remaining words.old) (R.remaining words.new) []) }
    ensures more { IfErr result (HasMoreWords (R.remaining words.old) (R.remaining words.new)) }
    ensures read { result ≡ Err Fault.Read → R.count words.new ≡ R.count words.old + 1 }
    ensures no_other { result ≢ Err Fault.Read → R.count words.new ≡ R.count words.old }
{
    let mut byte = [0u8];
    match read_full(words, &mut byte) {
        Err(_) => Err(Fault::Read),
        Ok(0) => Ok(()),
        Ok(_) => Err(Fault::about("words: ", FaultText::of("more than certificates"))),
    }
}

/// Prints a line, all at once.
pub(crate) fn print_line<O: CountedWrite>(out: &mut O, line: &Line) -> Result<(), Fault<'static>>
    requires { CanCount (O.count out.old) }
    ensures bytes { OnOk result (Appends (O.contents out.old) (O.contents out.new) line.now) }
    ensures part { IfErr result (λ fault. (fault ≡ Fault.Write) × AppendsPart line.now (O.contents out.old) (O.contents out.new)) }
    ensures write { result ≡ Err Fault.Write → O.count out.new ≡ O.count out.old + 1 }
    ensures no_write { result ≢ Err Fault.Write → O.count out.new ≡ O.count out.old }
{
    match write_full(out, line.as_bytes()) {
        Ok(()) => Ok(()),
        Err(_) => Err(Fault::Write),
    }
}

/// Reads the next certificate and the word for it, and prints the line of its frame, which has this number. `None` if
/// both files are at their end.
pub(crate) fn compare_next<R: CountedRead, O: CountedWrite>(
    alloc: Global,
    comparer: &mut Comparer<'_>,
    number: u64,
    certificates: &mut R,
    words: &mut R,
    out: &mut O,
) -> Result<Option<Compared>, Fault<'static>>
    requires certificates { CanCount (R.count certificates.old) }
    requires words { CanCount (R.count words.old) }
    requires out { CanCount (O.count out.old) }
    ensures compares { ComparesNext comparer.old.form comparer.old.rows number
        (feeds (R.remaining certificates.old) (R.remaining words.old)) (feeds (R.remaining certificates.new) (R.remaining words.new))
        (O.contents out.old) (O.contents out.new) result }
    ensures same { comparer.new ≡ comparer.old }
    ensures read { result ≡ Err Fault.Read → R.count certificates.new + R.count words.new ≡ R.count certificates.old + R.count words.old + 1 }
    ensures no_read { result ≢ Err Fault.Read → R.count certificates.new ≡ R.count certificates.old }
    ensures no_other { result ≢ Err Fault.Read → R.count words.new ≡ R.count words.old }
    ensures write { result ≡ Err Fault.Write → O.count out.new ≡ O.count out.old + 1 }
    ensures no_write { result ≢ Err Fault.Write → O.count out.new ≡ O.count out.old }
{
    let Some(certificate) = comparer.take_certificate(alloc, certificates)? else {
        expect_end(words)?;
        return Ok(None);
    };
    let answer = comparer.answer(&certificate, words)?;
    print_line(out, &frame_line(number, answer))?;
    Ok(Some(answer))
}
