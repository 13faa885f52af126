//! The next record whose frame may come.
ghost use Rattle.std.specs.Prelude.{◌≡◌, ◌≢◌, ◌↔◌, ◌^◌, ◌<◌, IfNone, IfOk, IfSome, IsTrue, Err};
ghost use Rattle.s2_certfile.specs.Format.{file_of_bytes};
ghost use Rattle.s2_check.specs.CertificateFiles.{Suits};
ghost use Rattle.s2_mode.specs.Counts.{CanCount};
ghost use Rattle.s2_stitch.specs.Frames.{file_in};
ghost use Rattle.s2_stitch.specs.Reading.{CountsRead};
ghost use Rattle.s2_stitch.specs.Sources.{IsOfUse};
ghost use Rattle.s2_stitch.specs.Usable.{IsUsable, ReadsUsable};

use crate::read::{RecordFault, read_record};
use crate::record::Record;
use s2_check::{CertFault, Certificate};
use s2_matrix::Matrix;
use s2_mode::CountedRead;
use s2_receive::MAX_SYMBOLS;
use std::alloc::Global;

/// A record with its certificate, if it has one.
#[derive(Drop)]
pub(crate) struct Usable {
    pub(crate) record: Record,
    pub(crate) certificate: Option<Certificate>,
}

/// The certificate of a record. No bytes are none.
fn certificate_in(alloc: Global, bytes: &[u8]) -> Result<Option<Certificate>, RecordFault>
    ensures value { IfOk result (λ c. c ≡ file_in (file_of_bytes bytes.now)) }
    ensures no_read { result ≢ Err RecordFault.Read }
{
    if bytes.is_empty() {
        return Ok(None);
    }
    match Certificate::read(alloc, bytes) {
        Ok(certificate) => Ok(Some(certificate)),
        Err(CertFault::NoMemory) => Err(RecordFault::NoMemory),
        Err(_) => Err(RecordFault::NotARecord),
    }
}

/// Whether a certificate suits a matrix, or there is none.
fn suits(matrix: &Matrix, certificate: &Option<Certificate>) -> bool
    ensures { IsTrue result ↔ IfSome certificate.now (Suits matrix.now) }
{
    match certificate {
        Some(certificate) => certificate.view(matrix).is_some(),
        None => true,
    }
}

/// A record with its certificate. Nothing if its frame begins before this position or after the last symbol that a receiver can reach,
/// or if its certificate does not suit the matrix.
fn usable_record(
    alloc: Global,
    matrix: &Matrix,
    from: u64,
    own: Record,
) -> Result<Option<Usable>, RecordFault>
    ensures same { IfOk result (λ o. IfSome o (λ u. u.record ≡ own)) }
    ensures certificate { IfOk result (λ o. IfSome o (λ u. u.certificate ≡ file_in (file_of_bytes own.certificate))) }
    ensures of_use { IfOk result (λ o. IfSome o (λ u. IsOfUse matrix.now from own)) }
    ensures passed { IfOk result (λ o. IfNone o (¬ IsOfUse matrix.now from own)) }
    ensures no_read { result ≢ Err RecordFault.Read }
{
    if own.at < from || own.at > MAX_SYMBOLS {
        return Ok(None);
    }
    let certificate = certificate_in(alloc, &own.certificate)?;
    if !suits(matrix, &certificate) {
        return Ok(None);
    }
    Ok(Some(Usable {
        record: own,
        certificate,
    }))
}

/// The next record whose frame may come from this position on. Other records are passed: those before it, and those whose certificate does
/// not suit the matrix. `None` at the end of the records.
pub(crate) fn next_usable<Q: CountedRead>(
    alloc: Global,
    matrix: &Matrix,
    records: &mut Q,
    bits: usize,
    from: u64,
) -> Result<Option<Usable>, RecordFault>
    requires count { CanCount (Q.count records.old) }
    requires bits { bits < 2 ^ 32 }
    ensures reads { IfOk result (ReadsUsable matrix.now bits from (Q.remaining records.old) (Q.remaining records.new)) }
    ensures usable { IfOk result (λ o. IfSome o (IsUsable matrix.now bits from)) }
    ensures counts { CountsRead (Q.count records.old) (Q.count records.new) result }
{
    'records: for _passed in 0..u64::MAX {
        let Some(record) = read_record(alloc, records, bits)? else {
            return Ok(None);
        };
        if let Some(usable) = usable_record(alloc, matrix, from, record)? {
            return Ok(Some(usable));
        }
    }
    Err(RecordFault::NotARecord)
}
