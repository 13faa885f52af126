//! Reads a record.
ghost use Rattle.std.specs.Prelude.{◌≡◌, ◌^◌, ◌<◌, IfOk, IfSome, IsErrOf, None, length};
ghost use Rattle.std.specs.Io.KnownBytes.{Consumes};
ghost use Rattle.std.specs.Int.{from_be_bytes, w32, w64};
ghost use Rattle.s2_mode.specs.Counts.{CanCount};
ghost use Rattle.s2_stitch.specs.Records.{record_at};
ghost use Rattle.s2_stitch.specs.Reading.{CountsRead, ReadsFront, ReadsRecord, SaysFront};

use crate::limits::{FRONT_BYTES, MAX_CERTIFICATE};
use crate::record::Record;
use crate::verdicts::verdict_of;
use s2_bits::Bits;
use s2_check::Verdict;
use s2_mode::{CountedRead, read_full};
use std::alloc::Global;
use thiserror::Error;

/// Why no record could be read: a read failed, the bytes are no record, or memory does not suffice.
#[derive(Clone, Copy, Debug, PartialEq, Eq, Error)]
pub enum RecordFault {
    #[error("cannot read")]
    Read,
    #[error("not the record of a decision")]
    NotARecord,
    #[error("no memory")]
    NoMemory,
}

/// The front of a record: all numbers before its decided bits, and the verdict.
#[derive(Clone, Copy)]
pub(crate) struct Front {
    pub(crate) at: u64,
    pub(crate) seal: u64,
    pub(crate) rounds: u32,
    pub(crate) size: usize,
    pub(crate) verdict: Option<Verdict>,
}

/// A number of eight bytes.
fn number64(bytes: &[u8]) -> u64
    requires { length bytes.now ≡ 8 }
    ensures { result ≡ from_be_bytes w64 bytes.now }
{
    u64::from_be_bytes([
        bytes[0], bytes[1], bytes[2], bytes[3], bytes[4], bytes[5], bytes[6], bytes[7],
    ])
}

/// A number of four bytes.
fn number32(bytes: &[u8]) -> u32
    requires { length bytes.now ≡ 4 }
    ensures { result ≡ from_be_bytes w32 bytes.now }
{
    u32::from_be_bytes([bytes[0], bytes[1], bytes[2], bytes[3]])
}

/// The front that these twenty-four bytes and this byte are, if they are one.
fn front_in(numbers: &[u8], byte: u8) -> Option<Front>
    requires { length numbers.now ≡ 24 }
    ensures { SaysFront numbers.now byte result }
{
    let (at, numbers) = numbers.split_at(8);
    let (seal, numbers) = numbers.split_at(8);
    let (rounds, size) = numbers.split_at(4);
    let size = number32(size) as usize;
    if size > MAX_CERTIFICATE {
        return None;
    }
    match verdict_of(byte) {
        Some(verdict) => Some(Front {
            at: number64(at),
            seal: number64(seal),
            rounds: number32(rounds),
            size,
            verdict,
        }),
        None => None,
    }
}

/// Reads the front of a record. `None` at the end of the bytes.
fn read_front<R: CountedRead>(reader: &mut R) -> Result<Option<Front>, RecordFault>
    requires { CanCount (R.count reader.old) }
    ensures reads { ReadsFront (R.remaining reader.old) (R.remaining reader.new) result }
    ensures counts { CountsRead (R.count reader.old) (R.count reader.new) result }
{
    let mut bytes = [0u8; FRONT_BYTES];
    let count = read_full(reader, &mut bytes).map_err(|_| RecordFault::Read)?;
    if count == 0 {
        return Ok(None);
    }
    if count < FRONT_BYTES {
        return Err(RecordFault::NotARecord);
    }
    match front_in(&bytes[..FRONT_BYTES - 1], bytes[FRONT_BYTES - 1]) {
        Some(front) => Ok(Some(front)),
        None => Err(RecordFault::NotARecord),
    }
}

/// Reads this number of bytes.
fn read_bytes<R: CountedRead>(
    alloc: Global,
    reader: &mut R,
    size: usize,
) -> Result<Vec<u8>, RecordFault>
    requires count { CanCount (R.count reader.old) }
    requires size { size < 2 ^ 32 }
    ensures bytes { IfOk result (λ v. (length v.items ≡ size) × Consumes (R.remaining reader.old) (R.remaining reader.new) v.items) }
    ensures fewer { IsErrOf result RecordFault.NotARecord → IfSome (R.remaining reader.old) (λ xs. length xs < size) }
    ensures counts { CountsRead (R.count reader.old) (R.count reader.new) result }
{
    let mut bytes = vec![in alloc; 0u8; size].map_err(|_| RecordFault::NoMemory)?;
    let count = read_full(reader, &mut bytes).map_err(|_| RecordFault::Read)?;
    if count < size {
        return Err(RecordFault::NotARecord);
    }
    Ok(bytes)
}

/// Reads the record of the decision on a word of this number of bits. `None` at the end of the bytes.
pub fn read_record<R: CountedRead>(
    alloc: Global,
    reader: &mut R,
    bits: usize,
) -> Result<Option<Record>, RecordFault>
    requires count { CanCount (R.count reader.old) }
    requires bits { bits < 2 ^ 32 }
    ensures reads { ReadsRecord bits (R.remaining reader.old) (R.remaining reader.new) result }
    ensures none { IsErrOf result RecordFault.NotARecord → IfSome (R.remaining reader.old) (λ xs. record_at bits xs ≡ None) }
    ensures counts { CountsRead (R.count reader.old) (R.count reader.new) result }
{
    let front = match read_front(reader)? {
        Some(front) => front,
        None => return Ok(None),
    };
    let word = read_bytes(alloc, reader, bits.div_ceil(8))?;
    let certificate = read_bytes(alloc, reader, front.size)?;
    match Bits::from_bytes(alloc, &word, bits) {
        Ok(word) => Ok(Some(Record {
            at: front.at,
            seal: front.seal,
            rounds: front.rounds,
            verdict: front.verdict,
            word,
            certificate,
        })),
        Err(_) => Err(RecordFault::NoMemory),
    }
}
