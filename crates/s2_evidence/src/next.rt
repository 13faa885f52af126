//! The certificates of a reader, one after another.
ghost use Rattle.std.specs.Prelude.{◌≡◌, ◌≢◌, ◌+◌, ◌<◌, ◌≤◌, Err, IfOk, OnErr, IsOkUnless, length, take, drop, vec_len};
ghost use Rattle.std.specs.Io.KnownBytes.{Consumes, IsAtEnd};
ghost use Rattle.s2_mode.specs.Counts.{CanCount};
ghost use Rattle.s2_certfile.specs.Format.{file_of_bytes};
ghost use Rattle.s2_evidence.specs.Pieces.{Takes, TakesPiece, max_piece};

use crate::check::certificate_of;
use crate::sizes::{HEAD_BYTES, MAX_PIECE, piece_size};
use s2_check::{CertFault, Certificate};
use s2_io::Fault;
use s2_mode::{CountedRead, read_full};
use std::alloc::Global;

/// Room for the bytes of any certificate, 6,358,517. `NoMemory` only if memory is refused.
pub fn piece_room(alloc: Global) -> Result<Vec<u8>, Fault<'static>>
    ensures room { IfOk result (λ v. vec_len v ≡ max_piece) }
    ensures told { IsOkUnless result Fault.NoMemory }
{
    vec![in alloc; 0u8; MAX_PIECE].map_err(|_| Fault::NoMemory)
}

/// Reads on, from one place of a buffer to another. Returns the end of the bytes, which is before that place only at
/// the end of the reader.
fn read_on<R: CountedRead>(
    reader: &mut R,
    buffer: &mut [u8],
    from: usize,
    to: usize,
) -> Result<usize, Fault<'static>>
    requires count { CanCount (R.count reader.old) }
    requires order { from ≤ to }
    requires room { to ≤ length buffer.old }
    ensures room { length buffer.new ≡ length buffer.old }
    ensures from { IfOk result (λ n. from ≤ n) }
    ensures to { IfOk result (λ n. n ≤ to) }
    ensures kept { take from buffer.new ≡ take from buffer.old }
    ensures bytes { IfOk result (λ n. Consumes (R.remaining reader.old) (R.remaining reader.new) (drop from (take n buffer.new))) }
    ensures end { IfOk result (λ n. n < to → IsAtEnd (R.remaining reader.new)) }
    ensures part { OnErr result (Takes (R.remaining reader.old) (R.remaining reader.new)) }
    ensures read { result ≡ Err Fault.Read → R.count reader.new ≡ R.count reader.old + 1 }
    ensures no_other { result ≢ Err Fault.Read → R.count reader.new ≡ R.count reader.old }
    ensures told { IsOkUnless result Fault.Read }
{
    match read_full(reader, &mut buffer[from..to]) {
        Ok(count) => Ok(from + count),
        Err(_) => Err(Fault::Read),
    }
}

/// Reads the bytes of the next certificate to the front of a buffer, and returns how many they are. They are fewer than
/// its header says only at the end of the reader.
fn read_piece<R: CountedRead>(reader: &mut R, buffer: &mut [u8]) -> Result<usize, Fault<'static>>
    requires count { CanCount (R.count reader.old) }
    requires room { length buffer.old ≡ max_piece }
    ensures room { length buffer.new ≡ length buffer.old }
    ensures bound { IfOk result (λ n. n ≤ length buffer.new) }
    ensures bytes { IfOk result (λ n. Consumes (R.remaining reader.old) (R.remaining reader.new) (take n buffer.new)) }
    ensures no_more { IfOk result (λ n. file_of_bytes (take n buffer.new) ≢ Err CertFault.Extra) }
    ensures last { IfOk result (λ n. file_of_bytes (take n buffer.new) ≡ Err CertFault.Cut → IsAtEnd (R.remaining reader.new)) }
    ensures part { OnErr result (Takes (R.remaining reader.old) (R.remaining reader.new)) }
    ensures read { result ≡ Err Fault.Read → R.count reader.new ≡ R.count reader.old + 1 }
    ensures no_other { result ≢ Err Fault.Read → R.count reader.new ≡ R.count reader.old }
    ensures told { IsOkUnless result Fault.Read }
{
    let head = read_on(reader, buffer, 0, HEAD_BYTES)?;
    if head < HEAD_BYTES {
        return Ok(head);
    }
    let size = piece_size(&buffer[..HEAD_BYTES]);
    let end = read_on(reader, buffer, HEAD_BYTES, size)?;
    Ok(end)
}

/// The next certificate of a reader; none at its end. The buffer is that of [`piece_room`]. A certificate is cut only if
/// it is the last one.
pub fn next_certificate<R: CountedRead>(
    alloc: Global,
    reader: &mut R,
    buffer: &mut [u8],
) -> Result<Option<Certificate>, Fault<'static>>
    requires count { CanCount (R.count reader.old) }
    requires room { length buffer.old ≡ max_piece }
    ensures room { length buffer.new ≡ length buffer.old }
    ensures takes { TakesPiece (R.remaining reader.old) (R.remaining reader.new) result }
    ensures read { result ≡ Err Fault.Read → R.count reader.new ≡ R.count reader.old + 1 }
    ensures no_other { result ≢ Err Fault.Read → R.count reader.new ≡ R.count reader.old }
{
    let size = read_piece(reader, buffer)?;
    if size == 0 {
        return Ok(None);
    }
    let certificate = certificate_of(alloc, &buffer[..size])?;
    Ok(Some(certificate))
}
