//! What a certificate shows about the soft values of a frame.
ghost use Rattle.std.specs.Prelude.{◌≡◌, ◌↔◌, IsTrue, IfOk, length};
ghost use Rattle.s2_mode.specs.Shape.{code_bits};
ghost use Rattle.s2_check.specs.CertificateFiles.{Suits, view_of};
ghost use Rattle.s2_replay.specs.Certificates.{Shows, ShowsFile, ShowsView};

use s2_bits::Bits;
use s2_check::{Answer, CertFault, CertView, Certificate, Verdict, examine};
use s2_matrix::Matrix;
use std::alloc::{AllocError, Global};

/// Why a certificate shows nothing of a frame: it has other soft values, or the checker does not accept it.
#[derive(Clone, Copy, Debug, PartialEq, Eq)]
pub enum Refusal {
    OtherValues,
    NotAccepted,
}

/// What a certificate shows of a frame: the verdict on its bits, and their cost. Or why it shows nothing.
#[derive(Clone, Copy, Debug, PartialEq, Eq)]
pub enum Shown {
    Word { verdict: Verdict, cost: i64 },
    Refused(Refusal),
}

/// Whether the soft values of a certificate are these.
fn has_values(view: &CertView<'_>, soft: &[i16]) -> bool
    requires { length soft.now ≡ code_bits view.now.rows.shape }
    ensures { IsTrue result ↔ (view.now.soft ≡ soft.now) }
{
    let _shape = view.shape();
    'places: for i in 0..soft.len() {
        if view.soft(i) != soft[i] {
            return false;
        }
    }
    true
}

/// Writes the bits of a certificate.
fn copy_bits(view: &CertView<'_>, word: &mut [bool])
    requires { length word.old ≡ code_bits view.now.rows.shape }
    ensures { word.new ≡ view.now.bits }
{
    let _shape = view.shape();
    'places: for i in 0..word.len() {
        word[i] = view.bit(i);
    }
}

/// What a certificate shows that has the frame's soft values.
fn examined(matrix: &Matrix, view: &CertView<'_>) -> Shown
    ensures { ShowsView matrix.now view.now.soft view.now.bits view.now result }
{
    let found = examine(matrix, view);
    if found.answer != Answer::Yes {
        return Shown::Refused(Refusal::NotAccepted);
    }
    let verdict = if found.strict {
        Verdict::Sole
    } else {
        Verdict::MostLikely
    };
    Shown::Word {
        verdict,
        cost: view.cost(),
    }
}

/// What a certificate shows that has the shape of the rows. Its bits are written.
fn compared(matrix: &Matrix, view: &CertView<'_>, soft: &[i16], word: &mut Bits) -> Shown
    requires soft { length soft.now ≡ code_bits view.now.rows.shape }
    requires word { length word.old ≡ code_bits view.now.rows.shape }
    ensures shows { ShowsView matrix.now soft.now word.new view.now result }
    ensures long { length word.new ≡ length word.old }
{
    copy_bits(view, word.truths_mut());
    if !has_values(view, soft) {
        return Shown::Refused(Refusal::OtherValues);
    }
    examined(matrix, view)
}

/// What a certificate shows.
fn judged(matrix: &Matrix, certificate: &Certificate, soft: &[i16], word: &mut Bits) -> Shown
    requires soft { length soft.now ≡ code_bits matrix.now.shape }
    requires word { length word.old ≡ code_bits matrix.now.shape }
    ensures shows { ShowsFile matrix.now soft.now word.new certificate.now result }
    ensures long { length word.new ≡ length word.old }
{
    match certificate.view(matrix) {
        Some(view) => compared(matrix, &view, soft, word),
        None => Shown::Refused(Refusal::NotAccepted),
    }
}

/// What the bytes of a certificate show of a frame with these soft values. Its bits are written to `word` if it shows a verdict on
/// them. `AllocError` only if memory does not suffice.
pub fn read_certificate(
    alloc: Global,
    matrix: &Matrix,
    bytes: &[u8],
    soft: &[i16],
    word: &mut Bits,
) -> Result<Shown, AllocError>
    requires soft { length soft.now ≡ code_bits matrix.now.shape }
    requires word { length word.old ≡ code_bits matrix.now.shape }
    ensures shows { IfOk result (Shows matrix.now soft.now word.new bytes.now) }
    ensures long { length word.new ≡ length word.old }
{
    match Certificate::read(alloc, bytes) {
        Ok(certificate) => Ok(judged(matrix, &certificate, soft, word)),
        Err(CertFault::NoMemory) => Err(AllocError),
        Err(_) => Ok(Shown::Refused(Refusal::NotAccepted)),
    }
}
