//! Reads the words of a device.
ghost use Rattle.std.specs.Prelude.{◌≡◌, ◌≢◌, ◌+◌, Bool, List, Option, Ok, Err, IfErr, IfOk, OnOk, length};
ghost use Rattle.std.specs.Io.KnownBytes.{Consumes};
ghost use Rattle.s2_mode.specs.Counts.{CanCount};
ghost use Rattle.s2_rows.specs.Rows.{Rows};
ghost use Rattle.s2_matrix.specs.Code.{code_of};
ghost use Rattle.s2_compare.specs.Devices.{Says, TakesWord, digits_fault, record_size, shape_for};
ghost use Rattle.s2_compare.specs.Readers.{FitsKind, IsCutOff, form_by, said};
ghost use Rattle.s2_compare.specs.Comparing.{given};

use crate::encoder::Encoder;
use crate::form::Form;
use crate::spelling::{is_nothing, line_into, unpack};
use s2_bits::Bits;
use s2_io::Fault;
use s2_matrix::Matrix;
use s2_mode::{CountedRead, FaultText, read_full};
use std::alloc::{AllocError, Global};
use std::marker::Model;

/// What a form needs besides a record: room for all bits of its bytes, nothing, or an encoder.
pub(crate) enum Kind {
    Bytes(Bits),
    Digits,
    Bbframes(Encoder),
}

impl Drop for Kind {
    fn drop(self) {
        match self {
            Kind::Bytes(_) | Kind::Digits | Kind::Bbframes(_) => (),
        }
    }
}

/// The kind of a form. `AllocError` only if memory is refused.
fn kind_of(alloc: Global, form: &Form) -> Result<Kind, AllocError>
    ensures form { IfOk result (λ k. form_by (shape_for form.now) k ≡ form.now) }
    ensures fits { (rows : Rows) → rows.shape ≡ shape_for form.now → IfOk result (λ k. FitsKind rows k) }
{
    match form {
        Form::Bytes(_) => {
            let wide = Bits::zeroed(alloc, 8 * form.record_size())?;
            Ok(Kind::Bytes(wide))
        }
        Form::Digits(_) => Ok(Kind::Digits),
        Form::Bbframes(mode) => {
            let encoder = Encoder::new(alloc, *mode)?;
            Ok(Kind::Bbframes(encoder))
        }
    }
}

/// Fills a record. A fault if a part of it is left, or nothing.
fn fill<R: CountedRead>(reader: &mut R, bytes: &mut [u8]) -> Result<(), Fault<'static>>
    requires { CanCount (R.count reader.old) }
    ensures size { length bytes.new ≡ length bytes.old }
    ensures full { OnOk result (Consumes (R.remaining reader.old) (R.remaining reader.new) bytes.new) }
    ensures cut { IfErr result (λ fault. IsCutOff (length bytes.old) (R.remaining reader.old) (R.remaining reader.new) fault) }
    ensures read { result ≡ Err Fault.Read → R.count reader.new ≡ R.count reader.old + 1 }
    ensures no_other { result ≢ Err Fault.Read → R.count reader.new ≡ R.count reader.old }
{
    match read_full(reader, bytes) {
        Err(_) => Err(Fault::Read),
        Ok(count) if count == bytes.len() => Ok(()),
        Ok(0) => Err(Fault::about("words: ", FaultText::of("fewer than certificates"))),
        Ok(_) => Err(Fault::about("words: ", FaultText::of("cut"))),
    }
}

/// Takes what a record says the device delivered. Returns whether it is a word, which is written to `word`.
fn take_record(
    matrix: &Matrix,
    kind: &mut Kind,
    bytes: &[u8],
    word: &mut Bits,
) -> Result<bool, Fault<'static>>
    requires kind { FitsKind matrix.now kind.old }
    requires bytes { length bytes.now ≡ record_size (form_by matrix.now.shape kind.old) }
    requires word { length word.old ≡ (code_of matrix.now).bits }
    ensures says { IfOk result (λ d. Says (form_by matrix.now.shape kind.old) matrix.now bytes.now (given d word.new)) }
    ensures refused { IfErr result (λ f. (f ≡ digits_fault) × ((device : Option (List Bool)) → Says (form_by matrix.now.shape kind.old) matrix.now bytes.now device → ⊥)) }
    ensures kind { FitsKind matrix.now kind.new }
    ensures form { form_by matrix.now.shape kind.new ≡ form_by matrix.now.shape kind.old }
    ensures size { length word.new ≡ length word.old }
{
    match kind {
        Kind::Bytes(wide) => {
            unpack(bytes, wide, word);
            Ok(true)
        }
        Kind::Digits => {
            if line_into(bytes, word) {
                return Ok(true);
            }
            Err(Fault::about("words: ", FaultText::of("not a line of n digits 0 and 1")))
        }
        Kind::Bbframes(encoder) => {
            if is_nothing(bytes) {
                return Ok(false);
            }
            encoder.encode(matrix, bytes, word);
            Ok(true)
        }
    }
}

/// Reads the words of a device, in its own buffers. Its value is the form, the address rows and the last word.
pub(crate) struct WordReader<'a> {
    matrix: &'a Matrix,
    kind: Kind,
    bytes: Vec<u8>,
    word: Bits,
}

impl<'a> Drop for WordReader<'a> {
    fn drop(self) {
        let WordReader {
            matrix: _,
            kind: _,
            bytes: _,
            word: _,
        } = self;
    }
}

impl<'a> Model for WordReader<'a> {
    ghost use Rattle.s2_compare.specs.Readers.{FitsReader, Reading, form_by};

    ghost Value = { Reading };

    ghost view = { λ r. record { form = form_by r.matrix.now.shape r.kind; rows = r.matrix.now; word = r.word } };

    ghost invariant = { λ r. FitsReader r.matrix.now r.kind r.bytes.items r.word };
}

impl<'a> WordReader<'a> {
    /// The reader of a form, for the code of a matrix. `AllocError` only if memory is refused.
    pub(crate) fn new(
        alloc: Global,
        matrix: &'a Matrix,
        form: &Form,
    ) -> Result<WordReader<'a>, AllocError>
        requires { matrix.now.shape ≡ shape_for form.now }
        ensures form { IfOk result (λ r. r.form ≡ form.now) }
        ensures rows { IfOk result (λ r. r.rows ≡ matrix.now) }
    {
        let kind = kind_of(alloc, form)?;
        let bytes = vec![in alloc; 0u8; form.record_size()]?;
        let word = Bits::zeroed(alloc, matrix.bits())?;
        Ok(WordReader {
            matrix,
            kind,
            bytes,
            word,
        })
    }

    /// The matrix.
    pub(crate) fn matrix(&self) -> &Matrix
        ensures { result.now ≡ self.now.rows }
    {
        self.matrix
    }

    /// The last word.
    pub(crate) fn word(&self) -> &Bits
        ensures is { result.now ≡ self.now.word }
        ensures long { length result.now ≡ (code_of self.now.rows).bits }
    {
        &self.word
    }

    /// Reads the next record. Returns whether the device delivered a word, which is then the last one.
    pub(crate) fn read<R: CountedRead>(&mut self, reader: &mut R) -> Result<bool, Fault<'static>>
        requires { CanCount (R.count reader.old) }
        ensures takes { TakesWord self.old.form self.old.rows (R.remaining reader.old) (R.remaining reader.new) (said result self.new.word) }
        ensures form { self.new.form ≡ self.old.form }
        ensures rows { self.new.rows ≡ self.old.rows }
        ensures read { result ≡ Err Fault.Read → R.count reader.new ≡ R.count reader.old + 1 }
        ensures no_other { result ≢ Err Fault.Read → R.count reader.new ≡ R.count reader.old }
    {
        fill(reader, &mut self.bytes)?;
        take_record(self.matrix, &mut self.kind, &self.bytes, &mut self.word)
    }
}
